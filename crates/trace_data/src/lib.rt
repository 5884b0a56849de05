//! The data of a trace: whether its outputs give what the dies hold that the trace has written, and what those hold in the end.
//!
//! [`judge_data`] puts the items of a trace on a bus of modelled dies, one after the other, and tells each output of a page whose byte is another one than that of
//! the die, a [`Difference`]. What isn't known isn't judged: an [`Origin`] says where a page has its bytes from. The works on a LUN that tell it are its
//! [`LunWorks`]. The definitions stand in `specs/Data`.
#![tactic(auto)]

mod data_judged;
mod difference;
mod difference_run;
mod gathering;
mod lun_work;
mod lun_works;
mod opened_dies;
mod origin;
mod page_read;
mod page_shown;
mod renumbering;
mod replaying;

pub use data_judged::DataJudged;
pub use difference::Difference;
pub use difference_run::{DifferenceRun, group_differences};
pub use gathering::find_page_reads;
pub use lun_work::{BegunWork, EndedWork};
pub use lun_works::LunWorks;
pub use opened_dies::OpenedDies;
pub use origin::Origin;
pub use page_read::{PageRead, fill_pages};
pub use page_shown::PageShown;
pub use renumbering::number_items;
pub use replaying::judge_data;
