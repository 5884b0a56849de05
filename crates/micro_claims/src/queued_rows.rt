//! The rows that wait in the queue of the LUN.
ghost use Rattle.std.specs.Prelude.{◌≡◌};
ghost use Rattle.micro_claims.specs.Against.{may_be_queued, queue_refuses};
ghost use Rattle.micro_claims.specs.Joins.{joined_rows};
ghost use Rattle.micro_claims.specs.Leaves.{moved_by, rows_at, reads_at, rows_moved, queued_planes, goes_along, queued_more, reads_beside, reads_more, may_be_reads, held_beside, held_by_read, copied_beside, alike_beside, same_drift};
ghost use Rattle.micro_claims.specs.Order.{are_rows_within};

use crate::drift::{Drift, IndexMove};
use crate::named_row::NamedRow;
use crate::planes::Planes;
use onfi_cycle::Command;

/// The rows that wait in the queue of the LUN.
#[derive(Clone, Copy)]
pub enum QueuedRows {
    NoRows,
    /// Rows to erase, or to program, of these planes, and so far from the index register.
    SomeRows {
        erase: bool,
        planes: Planes,
        drift: Drift,
    },
    /// Rows to read, of these planes, some of which are surely queued, and so far from the index register.
    SomeReads {
        planes: Planes,
        surely: Planes,
        drift: Drift,
    },
    AnyRows,
}

impl QueuedRows {
    fn at(erase: bool, planes: Planes, drift: Option<Drift>) -> QueuedRows
        ensures { result ≡ rows_at erase planes drift }
    {
        match drift {
            None => QueuedRows::AnyRows,
            Some(drift) => QueuedRows::SomeRows {
                erase,
                planes,
                drift,
            },
        }
    }

    fn reads_at(planes: Planes, surely: Planes, drift: Option<Drift>) -> QueuedRows
        ensures { result ≡ reads_at planes surely drift }
    {
        match drift {
            None => QueuedRows::AnyRows,
            Some(drift) => QueuedRows::SomeReads {
                planes,
                surely,
                drift,
            },
        }
    }

    pub(crate) fn after(self, by: IndexMove) -> QueuedRows
        ensures { result ≡ rows_moved (moved_by by) self }
    {
        match self {
            QueuedRows::SomeRows {
                erase,
                planes,
                drift,
            } => QueuedRows::at(erase, planes, drift.after(by)),
            QueuedRows::SomeReads {
                planes,
                surely,
                drift,
            } => QueuedRows::reads_at(planes, surely, drift.after(by)),
            QueuedRows::NoRows | QueuedRows::AnyRows => self,
        }
    }

    pub(crate) fn planes(self) -> Planes
        ensures { result ≡ queued_planes self }
    {
        match self {
            QueuedRows::SomeRows { planes, .. } => planes,
            QueuedRows::NoRows | QueuedRows::SomeReads { .. } | QueuedRows::AnyRows => {
                Planes::none()
            }
        }
    }

    // The queued rows are of this kind, and as far from the index register.
    fn goes_along(self, erase: bool, drift: Option<Drift>) -> bool
        ensures { result ≡ goes_along erase drift self }
    {
        match self {
            QueuedRows::NoRows => true,
            QueuedRows::SomeReads { .. } | QueuedRows::AnyRows => false,
            QueuedRows::SomeRows {
                erase: kind,
                drift: far,
                ..
            } => erase == kind && drift == Some(far),
        }
    }

    // With the row of the tail.
    pub(crate) fn with(self, erase: bool, named: Option<NamedRow>) -> QueuedRows
        ensures { result ≡ queued_more erase self named }
    {
        match named {
            Some(row) if self.goes_along(erase, row.drift) => {
                QueuedRows::at(erase, row.planes.or(self.planes()), row.drift)
            }
            _ => QueuedRows::AnyRows,
        }
    }

    // With a row to read, which goes beside reads of other planes alone.
    fn reads_beside(self, row: NamedRow) -> QueuedRows
        ensures { result ≡ reads_beside row self }
    {
        match self {
            QueuedRows::NoRows => QueuedRows::reads_at(row.planes, row.planes.sure(), row.drift),
            QueuedRows::SomeReads {
                planes,
                surely,
                drift,
            } if row.drift == Some(drift) && !row.planes.meet(planes) => QueuedRows::SomeReads {
                planes: row.planes.or(planes),
                surely: row.planes.sure().or(surely),
                drift,
            },
            QueuedRows::SomeReads { .. } | QueuedRows::SomeRows { .. } | QueuedRows::AnyRows => {
                QueuedRows::AnyRows
            }
        }
    }

    // With the row of the tail, to be read.
    pub(crate) fn with_read(self, named: Option<NamedRow>) -> QueuedRows
        ensures { result ≡ reads_more self named }
    {
        match named {
            None => QueuedRows::AnyRows,
            Some(row) => self.reads_beside(row),
        }
    }

    // Reads may be queued.
    pub(crate) fn may_be_reads(self) -> bool
        ensures { result ≡ may_be_reads self }
    {
        match self {
            QueuedRows::NoRows | QueuedRows::SomeRows { .. } => false,
            QueuedRows::SomeReads { .. } | QueuedRows::AnyRows => true,
        }
    }

    // The planes that surely hold a page behind a read of this row.
    fn held_beside(self, row: NamedRow) -> Planes
        ensures { result ≡ held_beside row self }
    {
        let own = row.planes.sure();
        match self {
            QueuedRows::SomeReads { planes, surely, .. } => {
                if row.planes.meet(planes) {
                    own
                } else {
                    own.or(surely)
                }
            }
            QueuedRows::NoRows | QueuedRows::SomeRows { .. } | QueuedRows::AnyRows => own,
        }
    }

    // The planes that surely hold a page behind a read of the row of the tail.
    pub(crate) fn held_by_read(self, named: Option<NamedRow>) -> Planes
        ensures { result ≡ held_by_read self named }
    {
        match named {
            None => Planes::none(),
            Some(row) => self.held_beside(row),
        }
    }

    // The planes that surely hold a page behind a 35h of this row: of the reads, where it is sure of each that its page was read.
    pub(crate) fn copied_beside(self, row: NamedRow) -> Planes
        ensures { result ≡ copied_beside row self }
    {
        match self {
            QueuedRows::SomeReads { planes, surely, .. }
                if row.planes.is_one() && !row.planes.meet(planes) && planes.are_within(surely) =>
                row.planes.or(surely),
            QueuedRows::NoRows
            | QueuedRows::SomeRows { .. }
            | QueuedRows::SomeReads { .. }
            | QueuedRows::AnyRows => row.planes.sure(),
        }
    }

    // Those of them whose rows are as far from the index register as this one.
    pub(crate) fn alike_beside(self, row: NamedRow) -> Planes
        ensures { result ≡ alike_beside row self }
    {
        match self {
            QueuedRows::SomeReads { drift, .. } if row.drift == Some(drift) => {
                self.copied_beside(row)
            }
            QueuedRows::NoRows
            | QueuedRows::SomeRows { .. }
            | QueuedRows::SomeReads { .. }
            | QueuedRows::AnyRows => row.planes.sure(),
        }
    }

    pub fn may_be_some(self) -> bool
        ensures { result ≡ may_be_queued self }
    {
        !matches!(self, QueuedRows::NoRows)
    }

    // The queue may refuse a row of these planes, of this opener.
    pub(crate) fn refuses(self, planes: Planes, opener: Command) -> bool
        ensures { result ≡ queue_refuses self planes opener }
    {
        match self {
            QueuedRows::NoRows => false,
            QueuedRows::AnyRows => true,
            QueuedRows::SomeRows {
                erase,
                planes: queued,
                drift,
            } => {
                opener == Command::Read
                    || erase != (opener == Command::BlockErase)
                    || drift.ahead != drift.behind
                    || planes.meet(queued)
            }
            QueuedRows::SomeReads {
                planes: queued,
                drift,
                ..
            } => { opener != Command::Read || drift.ahead != drift.behind || planes.meet(queued) }
        }
    }

    pub(crate) fn are_within(self, other: QueuedRows) -> bool
        ensures { result ≡ are_rows_within self other }
    {
        match (self, other) {
            (_, QueuedRows::AnyRows)
            | (QueuedRows::NoRows, QueuedRows::NoRows | QueuedRows::SomeRows { .. }) => true,
            (QueuedRows::NoRows, QueuedRows::SomeReads { surely, .. }) => {
                surely.are_within(Planes::none())
            }
            (
                QueuedRows::SomeRows {
                    erase,
                    planes,
                    drift,
                },
                QueuedRows::SomeRows {
                    erase: kind,
                    planes: others,
                    drift: far,
                },
            ) => erase == kind && planes.are_within(others) && drift == far,
            (
                QueuedRows::SomeReads {
                    planes,
                    surely,
                    drift,
                },
                QueuedRows::SomeReads {
                    planes: others,
                    surely: some,
                    drift: far,
                },
            ) => some.are_within(surely) && planes.are_within(others) && drift == far,
            _ => false,
        }
    }

    pub(crate) fn join(self, other: QueuedRows) -> QueuedRows
        ensures { result ≡ joined_rows self other }
    {
        match (self, other) {
            (QueuedRows::NoRows, QueuedRows::NoRows | QueuedRows::SomeRows { .. }) => other,
            (QueuedRows::SomeRows { .. }, QueuedRows::NoRows) => self,
            (QueuedRows::NoRows, QueuedRows::SomeReads { planes, drift, .. })
            | (QueuedRows::SomeReads { planes, drift, .. }, QueuedRows::NoRows) => {
                QueuedRows::SomeReads {
                    planes,
                    surely: Planes::none(),
                    drift,
                }
            }
            (
                QueuedRows::SomeReads {
                    planes,
                    surely,
                    drift,
                },
                QueuedRows::SomeReads {
                    planes: others,
                    surely: some,
                    drift: far,
                },
            ) if drift == far => QueuedRows::SomeReads {
                planes: planes.or(others),
                surely: surely.and(some),
                drift,
            },
            (
                QueuedRows::SomeRows {
                    erase,
                    planes,
                    drift,
                },
                QueuedRows::SomeRows {
                    erase: kind,
                    planes: others,
                    drift: far,
                },
            ) if erase == kind && drift == far => QueuedRows::SomeRows {
                erase,
                planes: planes.or(others),
                drift,
            },
            _ => QueuedRows::AnyRows,
        }
    }
}
