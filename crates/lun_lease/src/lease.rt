// Seats and leases.
ghost use Rattle.std.specs.Prelude.{◌≡◌, ◌≢◌, ◌+◌, ◌<◌, [], ◌∷◌, ◌++◌, IfOk};
ghost use Rattle.lun_lease.specs.Lease.{AreNew};

use crate::rule::{
    Claims, Compares, Deals, LaysBeside, LeaseRule, Lends, PutsAside, Releases, TakesBack, View,
};
use arrayvec::ArrayVec;
use atomic_table::{Seat, Table};
use std::alloc::{AllocError, Allocator, Global};
use std::marker::{Model, PhantomData};
use std::sync::Arc;

/// How many LUNs a table has, and how many seats.
pub const SEATS: usize = 16;

type Words<A> = Table<(), View, (), LeaseRule, A>;

/// A right to claim one LUN at a time. The table is inside of it: no call takes one.
#[derive(Drop)]
pub struct LeaseSeat<A: Allocator = Global> {
    table: Arc<Words<A>, A>,
    seat: Seat<(), View>,
}

impl<A: Allocator> Model for LeaseSeat<A> {
    ghost use Rattle.lun_lease.specs.Lease.{Seated};
    ghost use Rattle.lun_lease.specs.Holding.{IsHolding};
    ghost use Rattle.std.specs.Prelude.{None};

    ghost Value = { Seated };

    ghost view = { λ s. record { table = s.seat.table_id; calls = s.seat.me.0.calls } };

    ghost invariant = { λ s. IsHolding s.table.value s.seat None };
}

/// A lease whose LUN has no job.
pub struct Idle;

/// A lease whose LUN has a job.
pub struct Loaded;

/// The right to work on a LUN, which no other lease of the table names. One that is dropped leaves its LUN claimed.
#[derive(Drop)]
pub struct Lease<S, A: Allocator = Global> {
    table: Arc<Words<A>, A>,
    seat: Seat<(), View>,
    lun: u32,
    state: PhantomData<S>,
}

impl<S, A: Allocator> Model for Lease<S, A> {
    ghost use Rattle.lun_lease.specs.Lease.{Leased};
    ghost use Rattle.lun_lease.specs.Holding.{IsHolding};
    ghost use Rattle.std.specs.Prelude.{◌<◌, Some};

    ghost Value = { Leased };

    ghost view = { λ s. record { table = s.seat.table_id; lun = s.lun; calls = s.seat.me.0.calls } };

    ghost invariant = { λ s. IsHolding s.table.value s.seat (Some s.lun) × (s.lun < 16) };
}

/// What a claim answers: a lease of the LUN, or the seat again where somebody holds the LUN.
#[derive(Drop)]
pub enum Claimed<A: Allocator = Global> {
    Got(Lease<Idle, A>),
    Held(LeaseSeat<A>),
}

/// Makes the seats of a table.
pub struct LeaseTable;

impl LeaseTable {
    ghost use Rattle.atomic_table.specs.Seated.{TableId};

    /// Sixteen seats of a new table, of whose LUNs none is held, or `AllocError` where memory is refused.
    pub fn new<A: Allocator + Clone>(
        alloc: A,
    ) -> Result<ArrayVec<Option<LeaseSeat<A>>, SEATS>, AllocError>
        ensures { IfOk result (λ v. (table : TableId) × AreNew v.items table) }
    {
        let mut deck = Deck::new(alloc)?;
        let mut seats = ArrayVec::new();
        for _ in 1..SEATS {
            seats.push(Some(deck.deal()?));
        }
        seats.push(Some(deck.last()));
        Ok(seats)
    }
}

// The first seat of a new table, which has the parts of the seats to come.
#[derive(Drop)]
struct Deck<A: Allocator = Global> {
    table: Arc<Words<A>, A>,
    seat: Seat<(), View>,
    left: u32,
}

impl<A: Allocator> Model for Deck<A> {
    ghost use Rattle.lun_lease.specs.Lease.{Dealt};
    ghost use Rattle.lun_lease.specs.Holding.{IsDealing};

    ghost Value = { Dealt };

    ghost view = { λ d. record { table = d.seat.table_id; left = d.left } };

    ghost invariant = { λ d. IsDealing d.table.value d.seat d.left };
}

impl<A: Allocator + Clone> Deck<A> {
    // The seats of a new table.
    fn new(alloc: A) -> Result<Deck<A>, AllocError>
        ensures { IfOk result (λ d. d.left ≡ 16) }
    {
        let (table, seat) = Words::of_words(alloc.clone()?, &[0; SEATS], &())?;
        Ok(Deck {
            table: Arc::new(alloc, table)?,
            seat,
            left: SEATS as u32,
        })
    }

    // One of them.
    fn deal(&mut self) -> Result<LeaseSeat<A>, AllocError>
        requires { 0 < self.old.left }
        ensures new { IfOk result (λ s. s ≡ record { table = self.old.table; calls = [] }) }
        ensures same { self.new.table ≡ self.old.table }
        ensures left { IfOk result (λ _. self.new.left + 1 ≡ self.old.left) }
    {
        let table = Arc::try_clone(&self.table)?;
        let seat = table.shared.split_seat::<Deals>(&mut self.seat);
        self.left -= 1;
        Ok(LeaseSeat { table, seat })
    }
}

impl<A: Allocator> Deck<A> {
    // The last of them.
    fn last(self) -> LeaseSeat<A>
        requires { self.left ≡ 1 }
        ensures { result ≡ record { table = self.table; calls = [] } }
    {
        let Deck {
            table,
            seat,
            left: _,
        } = self;
        LeaseSeat { table, seat }
    }
}

impl<A: Allocator> LeaseSeat<A> {
    ghost use Rattle.lun_lease.specs.Claimed.{IsAnswer};

    /// Claims a LUN in one atomic step: a lease where nobody held it, and else the seat again. The answer joins the
    /// seat's list of calls, in which the rule of the table lets none be false.
    pub fn claim(mut self, lun: u32) -> Claimed<A>
        requires { lun < 16 }
        ensures { IsAnswer self lun result }
    {
        let found = self
            .table
            .shared
            .compare_exchange::<Claims>(&mut self.seat, lun as usize, 0, 1);
        let LeaseSeat { table, seat } = self;
        if found == 0 {
            Claimed::Got(Lease {
                table,
                seat,
                lun,
                state: PhantomData,
            })
        } else {
            Claimed::Held(LeaseSeat { table, seat })
        }
    }
}

impl<S, A: Allocator> Lease<S, A> {
    /// The LUN that it names.
    pub fn lun(&self) -> u32
        ensures value { result ≡ self.now.lun }
        ensures fits { result < 16 }
    {
        self.lun
    }

    /// Tells what the rule of the table keeps: two leases of one table name two LUNs. Both stay as they are. It loads
    /// one word five times, and ignores what it finds.
    pub fn tell_apart<T>(&mut self, other: &mut Lease<T, A>)
        requires { self.old.table ≡ other.old.table }
        ensures apart { self.old.lun ≢ other.old.lun }
        ensures same { (self.new ≡ self.old) × (other.new ≡ other.old) }
    {
        let lent = self.table.shared.split_seat::<Lends>(&mut other.seat);
        self.table
            .shared
            .join_seat::<LaysBeside>(&mut self.seat, lent);
        self.table.shared.load::<Compares>(&mut self.seat, 0);
        let lent = self.table.shared.split_seat::<PutsAside>(&mut self.seat);
        self.table
            .shared
            .join_seat::<TakesBack>(&mut other.seat, lent);
    }

    // The same lease, in another state.
    fn into_state<T>(self) -> Lease<T, A>
        ensures { result ≡ self }
    {
        let Lease {
            table,
            seat,
            lun,
            state: _,
        } = self;
        Lease {
            table,
            seat,
            lun,
            state: PhantomData,
        }
    }
}

impl<A: Allocator> Lease<Idle, A> {
    ghost use Rattle.lun_lease.specs.Lease.{Seated};
    ghost use Rattle.lun_lease.specs.declared.rule.Call.TheVariants.{Released};

    /// Gives the LUN back in one atomic step.
    pub fn release(self) -> LeaseSeat<A>
        ensures { result ≡ record { table = self.table; calls = self.calls ++ Released self.lun ∷ [] } }
    {
        let Lease {
            table,
            mut seat,
            lun,
            state: _,
        } = self;
        table.shared.store::<Releases>(&mut seat, lun as usize, 0);
        LeaseSeat { table, seat }
    }

    /// The same lease, whose LUN has a job from now on.
    pub fn loaded(self) -> Lease<Loaded, A>
        ensures { result ≡ self }
    {
        self.into_state()
    }
}

impl<A: Allocator> Lease<Loaded, A> {
    /// The same lease, whose LUN has no job any more.
    pub fn idle(self) -> Lease<Idle, A>
        ensures { result ≡ self }
    {
        self.into_state()
    }
}
