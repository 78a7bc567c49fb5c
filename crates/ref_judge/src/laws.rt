//! What a profile changes: nothing where it has no word, and else it only adds legal traces. What a trace may leave
//! out, that it has one verdict, and what holds in each state to which it leads.

ghost use Rattle.std.specs.Prelude.{◌≡◌, ℕ, true, List, ◌++◌, Option, ◌↔◌};
ghost use Rattle.ref_base.specs.Collectors.{State, first_state};
ghost use Rattle.ref_base.specs.LegalTraces.{IsLegal};
ghost use Rattle.ref_base.specs.declared.config.Config.{Config};
ghost use Rattle.ref_base.specs.declared.row.Row.{Row};
ghost use Rattle.ref_judge.specs.IdleRows.{LeavesOut};
ghost use Rattle.ref_judge.specs.LegalStates.{Facts};
ghost use Rattle.ref_judge.specs.ProfiledRows.{strict, IsLegalAs, IsRunAs};
ghost use Rattle.ref_judge.specs.Verdicts.{Judges};
ghost use Rattle.ref_judge.specs.declared.order.Order.{Order};
ghost use Rattle.ref_judge.specs.declared.profile.Profile.{Profile};

// promise: Profile::strict: its legal traces are those of the abstract collector
/// Of the strict profile those traces are legal that are legal for the abstract collector.
pub fn the_strict_profile_is_the_abstract_collector()
    ensures { (config : Config) (rows : List Row) → IsLegalAs strict config rows ↔ IsLegal config rows }
{}

// promise: Profile::strict: what is legal stays so where a collector may keep more
/// What is legal of a collector stays so where it may keep more.
pub fn keeping_more_only_adds_traces()
    ensures { (profile : Profile) (config : Config) (rows : List Row) → IsLegalAs profile config rows
        → IsLegalAs (record profile { keeps_more = true }) config rows }
{}

// promise: Profile::strict: what is legal stays so where soft references are free
/// What is legal of a collector stays so where soft references are free.
pub fn free_soft_references_only_add_traces()
    ensures { (profile : Profile) (config : Config) (rows : List Row) → IsLegalAs profile config rows
        → IsLegalAs (record profile { soft_free = true }) config rows }
{}

// promise: Profile::strict: what is legal stays so where queues may give any
/// What is legal of a collector whose queues give the first first stays so where they may give any.
pub fn any_order_only_adds_traces()
    ensures { (profile : Profile) (config : Config) (rows : List Row) → profile.order ≡ Order.First
        → IsLegalAs profile config rows → IsLegalAs (record profile { order = Order.Any }) config rows }
{}

// promise: ref_world::run: its trace stays legal where rows that were refused, or idle, are left out
/// Any rows of a legal trace may be left out that were refused, or are `none` of `scan`, `clearnext`, `hand`, `hands`,
/// `sweep` or `move`: it stays legal, and an instrument needn't log idle workers.
pub fn idle_rows_may_be_left_out()
    ensures { (profile : Profile) (config : Config) (rows kept : List Row) → LeavesOut rows kept
        → IsLegalAs profile config rows → IsLegalAs profile config kept }
{}

// promise: Profile::strict: the front of what is legal for a profile is too
/// The front of a legal trace is legal.
pub fn the_front_of_a_legal_trace_is_legal()
    ensures { (profile : Profile) (config : Config) (front back : List Row) → IsLegalAs profile config (front ++ back)
        → IsLegalAs profile config front }
{}

// promise: ref_world::run: its trace has one verdict
/// A trace has one verdict: two that are true of it are equal.
pub fn a_trace_has_one_verdict()
    ensures { (profile : Profile) (config : Config) (rows : List Row) (verdict other : Option ℕ)
        → Judges profile config rows verdict → Judges profile config rows other → verdict ≡ other }
{}

// promise: Profile::strict: what holds in each state that a collector of any profile comes to
/// In each state to which rows of a collector lead: what slots, notices, pending references and objects name is there
/// and isn't doomed, but for what the doomed name. Each number that was given is below the next. What a cycle scanned,
/// each once, was made before it. Each notice is for its own reference's queue, is held, and stands once at most in all
/// that its queue ever took in.
pub fn each_state_has_these_facts()
    ensures { (profile : Profile) (config : Config) (rows : List Row) (last : State)
        → IsRunAs profile (first_state config) rows last → Facts config last }
{}
