//! Steps in a row that reach what people forget.

use super::known::Want;
use super::parts::Part;
use ref_base::{Phase, Strength, Urgency};

/// Names for the slots of one mutator that a pattern is about, all of them different.
#[derive(Clone, Copy, PartialEq, Eq)]
pub enum Role {
    Object,
    Other,
    Reference,
    Free,
    Empty,
}

/// How many roles there are.
pub const ROLES: usize = 5;

/// Each role.
pub const ALL_ROLES: [Role; ROLES] = [
    Role::Object,
    Role::Other,
    Role::Reference,
    Role::Free,
    Role::Empty,
];

/// A step of a pattern. The numbers that it leaves out are drawn as the pattern begins.
#[derive(Clone, Copy)]
pub enum Act {
    /// Makes an object, mostly with fields.
    New(Role),
    /// Makes a reference to what the other role holds, mostly with fields and a queue.
    Refer(Strength, Role, Role),
    /// Loads into the first role the field of the other that isn't null.
    Load(Role, Role),
    /// Stores into that field of the first role what the other holds.
    Store(Role, Role),
    /// Loads any field, or stores into any.
    LoadAny(Role, Role),
    StoreAny(Role, Role),
    Copy(Role, Role),
    Drop(Role),
    Get(Role, Role),
    Clear(Role),
    Refers(Role, Role),
    Unhook(Role),
    Put,
    Puts,
    Release,
    PutByWorker,
    PutsByWorker,
    ReleaseByWorker,
    Poll,
    Polls,
    Adopt(Role),
    Close,
    /// Closes any queue, most often one that isn't there.
    CloseAny,
    Job(Role),
    Run(Role),
    Begin(Clock, Urgency),
    /// Does what a worker does in this phase, once.
    Work,
    /// Does what a worker does in this phase until nothing is left.
    WorkAll,
    /// Ends this phase.
    End,
    /// Does what a worker does in that phase.
    WorkIn(Phase),
    /// Does what any worker does in this phase, most often one that isn't there.
    WorkByAny,
    /// Ends that phase.
    EndOf(Phase),
    Hand,
    Hands,
    Select,
}

/// The clock of a cycle, by that of the cycle before.
#[derive(Clone, Copy)]
pub enum Clock {
    Same,
    Later,
    Back,
    /// The last one that there is.
    Last,
}

/// How often the first part of a pattern comes.
#[derive(Clone, Copy)]
pub enum Times {
    Once,
    /// As often as the heap has cells, where these are few.
    Cells,
    /// Once more than a hand has room for, where the heap has room for that.
    Hands,
    /// A little more often than a page has cells, where the heap has more than one.
    Pages,
}

/// Steps in a row, or one.
pub struct Pattern {
    /// How often it is taken, of 32 times that it is drawn.
    pub weight: u32,
    /// The part of the format that it is of.
    pub part: Part,
    /// The phase in which it begins; `None` for any.
    pub phase: Option<Phase>,
    /// What the slots of its roles hold as it begins; the others hold anything.
    pub wants: &'static [(Role, Want)],
    pub times: Times,
    pub first: &'static [Act],
    pub then: &'static [Act],
}

/// A pattern: its weight, its part, the phase in which it begins, what it wants, and its steps, behind those that come
/// more often, where some do.
macro_rules! pattern {
    ($weight:literal $part:ident: [$($role:ident: $want:ident),*] => [$($then:expr),*]) => {
        pattern! { $weight $part (None): [$($role: $want),*] => Once [] then [$($then),*] }
    };
    ($weight:literal $part:ident, $phase:ident: [$($role:ident: $want:ident),*] => [$($then:expr),*]) => {
        pattern! { $weight $part (Some(Phase::$phase)): [$($role: $want),*] => Once [] then [$($then),*] }
    };
    ($weight:literal $part:ident ($phase:expr): [$($role:ident: $want:ident),*]
        => $times:ident [$($first:expr),*] then [$($then:expr),*]) => {
        Pattern {
            weight: $weight,
            part: Part::$part,
            phase: $phase,
            wants: &[$((Role::$role, Want::$want)),*],
            times: Times::$times,
            first: &[$($first),*],
            then: &[$($then),*],
        }
    };
}

use Act::*;
use Clock::{Back, Last, Later, Same};
use Role::{Empty, Free, Object, Other, Reference};
use Strength::{Phantom, Soft, Weak};
use Urgency::{Normal, Urgent};

/// Steps of the program's threads, alone.
pub static OF_MUTATORS: [Pattern; 33] = [
    pattern! { 32 Plain: [Free: Nothing] => [New(Free)] },
    pattern! { 16 Plain: [] => [New(Free)] },
    pattern! { 32 Plain: [Object: Object] => [Refer(Weak, Free, Object)] },
    pattern! { 32 Plain: [Object: Object, Free: Nothing] => [Refer(Phantom, Free, Object)] },
    pattern! { 32 Soft: [Object: Object] => [Refer(Soft, Free, Object)] },
    pattern! { 32 Plain: [Object: Fields, Other: Object] => [StoreAny(Object, Other)] },
    pattern! { 16 Plain: [Object: Fields, Empty: Nothing] => [StoreAny(Object, Empty)] },
    pattern! { 32 Plain: [Object: Full] => [Load(Free, Object)] },
    pattern! { 16 Plain: [Object: Object] => [LoadAny(Free, Object)] },
    pattern! { 16 Plain: [Object: Object, Free: Nothing] => [Copy(Free, Object)] },
    pattern! { 2 Plain: [] => [Copy(Free, Object)] },
    pattern! { 32 Plain: [Object: Object] => [Drop(Object)] },
    pattern! { 32 Plain: [Reference: Reference] => [Get(Free, Reference)] },
    pattern! { 8 Plain: [] => [Get(Free, Reference)] },
    pattern! { 8 Plain: [Reference: Reference] => [Clear(Reference)] },
    pattern! { 16 Plain: [Reference: Reference] => [Refers(Reference, Other)] },
    pattern! { 16 Plain: [Reference: Reference] => [Unhook(Reference)] },
    pattern! { 1 Plain: [Reference: Object] => [Clear(Reference)] },
    pattern! { 1 Plain: [Reference: Object] => [Refers(Reference, Other)] },
    pattern! { 1 Plain: [Reference: Object] => [Unhook(Reference)] },
    pattern! { 1 Jobs: [Reference: Object] => [Job(Reference)] },
    pattern! { 1 Jobs: [Reference: Object] => [Run(Reference)] },
    pattern! { 32 Plain: [] => [Put] },
    pattern! { 32 Batches: [] => [Puts] },
    pattern! { 16 Plain: [] => [Release] },
    pattern! { 32 Plain: [] => [Poll] },
    pattern! { 32 Batches: [] => [Polls] },
    pattern! { 32 Plain: [] => [Adopt(Free)] },
    pattern! { 1 Plain: [] => [Close] },
    pattern! { 1 Plain: [] => [CloseAny] },
    pattern! { 8 Jobs: [Reference: Reference] => [Job(Reference)] },
    pattern! { 8 Jobs: [Reference: Reference] => [Run(Reference)] },
    pattern! { 4 Jobs: [] => [Run(Reference)] },
];

/// Steps of the collector, alone.
pub static OF_COLLECTOR: [Pattern; 25] = [
    pattern! { 32 Plain: [] => [Work] },
    pattern! { 32 Plain: [] => [Work] },
    pattern! { 32 Plain: [] => [Work] },
    pattern! { 16 Plain: [] => [End] },
    pattern! { 16 Moves, Moving: [] => [End] },
    pattern! { 16 Moves, Moving: [] => [WorkByAny] },
    pattern! { 8 Plain, Idle: [] => [Begin(Same, Normal)] },
    pattern! { 16 Soft, Idle: [] => [Begin(Later, Normal)] },
    pattern! { 8 Soft, Idle: [] => [Begin(Later, Urgent)] },
    pattern! { 2 Soft, Idle: [] => [Begin(Back, Normal)] },
    pattern! { 1 Plain: [] => [Begin(Same, Normal)] },
    pattern! { 1 Plain: [] => [WorkIn(Phase::Marking)] },
    pattern! { 1 Plain: [] => [WorkIn(Phase::Clearing)] },
    pattern! { 1 Plain: [] => [WorkIn(Phase::Sweeping)] },
    pattern! { 1 Plain: [] => [EndOf(Phase::Marking)] },
    pattern! { 1 Plain: [] => [EndOf(Phase::Clearing)] },
    pattern! { 1 Plain: [] => [EndOf(Phase::Sweeping)] },
    pattern! { 1 Moves: [] => [WorkIn(Phase::Moving)] },
    pattern! { 1 Moves: [] => [EndOf(Phase::Moving)] },
    pattern! { 4 Moves: [] => [Select] },
    pattern! { 2 Plain: [] => [ReleaseByWorker] },
    pattern! { 16 Plain: [] => [Hand] },
    pattern! { 16 Batches: [] => [Hands] },
    pattern! { 16 Plain: [] => [PutByWorker] },
    pattern! { 16 Batches: [] => [PutsByWorker] },
];

/// Steps in a row.
pub static IN_A_ROW: [Pattern; 26] = [
    // An object is loaded out of a field that is emptied at once: only a slot leads to it.
    pattern! { 16 Hide, Marking: [Object: White, Empty: Nothing] => [Load(Free, Object), Store(Object, Empty)] },
    // Then it is hidden behind a black object.
    pattern! { 16 Hide, Marking: [Object: White, Other: Black, Empty: Nothing] => [
        Load(Free, Object), Store(Other, Free), Store(Object, Empty), Drop(Free)
    ] },
    // Or behind a new object, whose slot alone is left.
    pattern! { 16 Hide, Marking: [Object: White, Empty: Nothing] => [
        Load(Free, Object), New(Other), Store(Other, Free), Store(Object, Empty), Drop(Free), Drop(Object)
    ] },
    // Or behind a new reference, and its field.
    pattern! { 16 Hide, Marking: [Object: White, Empty: Nothing] => [
        Load(Free, Object), Refer(Weak, Reference, Free), Store(Reference, Free), Store(Object, Empty), Drop(Free),
        Work, Get(Free, Reference)
    ] },
    // The only root of an object goes to another slot and back.
    pattern! { 16 Hide, Marking: [Object: Object] => [
        Copy(Free, Object), Drop(Object), Work, Copy(Object, Free), Drop(Free)
    ] },
    // The only root goes as its mark begins.
    pattern! { 16 Hide, Idle: [] => [
        New(Object), Refer(Weak, Reference, Object), Begin(Same, Normal), Drop(Object), Work, Get(Free, Reference)
    ] },
    // What is weakly reachable alone is got in the mark, and hidden behind a new object.
    pattern! { 16 Hide, Idle: [] => [
        New(Object), Refer(Weak, Reference, Object), Drop(Object), Begin(Same, Normal), New(Other), Work,
        Get(Free, Reference), Store(Other, Free), Drop(Free), WorkAll, End, Get(Free, Reference)
    ] },
    // A reference to what dies is got, compared and cleared in each phase.
    pattern! { 16 Hide, Idle: [Empty: Nothing] => [
        New(Object), Refer(Weak, Reference, Object), Refers(Reference, Object), Drop(Object), Begin(Same, Normal),
        WorkAll, End, Get(Free, Reference), Refers(Reference, Empty), WorkAll, Get(Free, Reference), End,
        Get(Free, Reference), Clear(Reference), WorkAll, Get(Free, Reference), End, Refers(Reference, Empty)
    ] },
    // A reference dies in the cycle in which its referent dies, and is never reported.
    pattern! { 16 Hide, Idle: [] => [
        New(Object), Refer(Weak, Reference, Object), Refer(Phantom, Other, Reference), Drop(Object), Drop(Reference),
        Begin(Same, Normal), WorkAll, End, WorkAll, Hand, PutByWorker, Hand, PutByWorker, Poll
    ] },
    // A reference is let go while its notice is under way.
    pattern! { 16 Hide, Clearing: [Reference: Pending] => [
        Drop(Reference), End, WorkAll, End, Begin(Same, Normal), WorkAll, End, Hand, PutByWorker, Poll, Adopt(Free)
    ] },
    // What is pending is unhooked, and put in twice.
    pattern! { 16 Hide, Clearing: [Reference: Pending] => [Unhook(Reference), Hand, Put, PutByWorker] },
    pattern! { 16 Hide, Clearing: [Reference: Pending] => [Hand, PutByWorker, Unhook(Reference), Put] },
    pattern! { 16 Hide, Marking: [Reference: Reference] => [Unhook(Reference), Put, Unhook(Reference), Put] },
    // References are unhooked and cleared between the mark that finds them and their clearing.
    pattern! { 16 Hide, Idle: [] => [
        New(Object), Refer(Weak, Reference, Object), Refer(Phantom, Other, Object), Drop(Object), Begin(Same, Normal),
        WorkAll, Unhook(Reference), End, Clear(Other), WorkAll, Put, Hand, PutByWorker
    ] },
    // A queue is closed between a clearing and the put.
    pattern! { 4 Hide, Clearing: [Reference: Pending] => [Hand, Close, PutByWorker, Poll] },
    // A heap is filled while it is marked, by what lives, and all of that is let go.
    pattern! { 16 Hide (Some(Phase::Marking)): [] => Cells [New(Free), Store(Free, Object), Copy(Object, Free)] then [
        WorkAll, End, New(Free), Drop(Object), Drop(Free)
    ] },
    // A clock goes back.
    pattern! { 16 Soft, Idle: [] => [Begin(Back, Normal), Begin(Same, Normal)] },
    pattern! { 1 Soft, Idle: [] => [Begin(Last, Normal)] },
    // A soft reference is got in an urgent cycle, and one to what was got lately in another.
    pattern! { 16 Soft, Idle: [] => [
        New(Object), Refer(Soft, Reference, Object), Refer(Soft, Other, Reference), Drop(Object), Drop(Reference),
        Begin(Later, Urgent), Work, Get(Free, Other), Drop(Free), WorkAll, End, WorkAll, Get(Free, Other)
    ] },
    pattern! { 16 Soft, Idle: [Reference: Reference] => [
        Get(Free, Reference), Drop(Free), Begin(Same, Normal), WorkAll, End, WorkAll
    ] },
    // A job is registered twice, and run while what it is about is doomed.
    pattern! { 16 Jobs, Idle: [] => [
        New(Object), Refer(Phantom, Reference, Object), Job(Reference), Job(Reference), Drop(Object),
        Begin(Same, Normal), WorkAll, End, Run(Reference), WorkAll, Run(Reference), Hand, PutByWorker, Job(Reference)
    ] },
    pattern! { 16 Jobs, Marking: [Reference: Reference] => [
        Job(Reference), Run(Reference), Work, Get(Free, Reference), Job(Reference)
    ] },
    // A hand is filled: more references than it has room for are to what dies at once.
    pattern! { 16 Batches (Some(Phase::Idle)): [Other: Nothing] => Hands [
        New(Object), Refer(Weak, Reference, Object), Store(Reference, Other), Copy(Other, Reference)
    ] then [
        Drop(Object), Begin(Same, Normal), WorkAll, End, WorkAll, Hands, PutsByWorker, Hands, PutsByWorker, Polls,
        Adopt(Free), Polls
    ] },
    // More than a page is filled, mostly by what dies at once, so that what lives can move.
    pattern! { 32 Moves (Some(Phase::Idle)): [Object: Fields] => Pages [New(Free)] then [
        Store(Object, Free), Begin(Same, Normal), WorkAll, End, WorkAll, End, WorkAll, End, Select, Work,
        Load(Free, Object)
    ] },
    pattern! { 32 Moves (Some(Phase::Idle)): [] => Pages [New(Free)] then [
        New(Object), Begin(Same, Normal), WorkAll, End, WorkAll, End, WorkAll, End, Select, Work, New(Other), WorkAll,
        End
    ] },
    // While objects move they are loaded, stored and got.
    pattern! { 32 Moves, Moving: [Object: Fields, Reference: Reference] => [
        Load(Free, Object), Get(Other, Reference), Store(Object, Other), Work, Load(Free, Object), End
    ] },
];
