// The first rule that a record breaks, by the state.
ghost use Rattle.std.specs.Prelude.{◌≡◌, true, not, ◌&&◌, ◌||◌, ◌∷◌, ltb, eqb};
ghost use Rattle.rules.specs.Kinds.{is_ref, is_known, first_broken, rules_in_order};
ghost use Rattle.rules.specs.State.{past, act_tests_of, refresh_tests_of, data_tests_of};
ghost use Rattle.timing.specs.Kept.{stamp_of, told_bank};
ghost use Rattle.broken.specs.ByState.{found_ref};

use distances::kinds::{is_known, is_ref};
use records::command::Kind;
use records::table::Table;
use rules::verdict::Rule;
use timing::kept::{KeptBank, kept_charged, kept_open, since};

// Rule 1. It "admits kind 5 with bank 0 only" (document 02, request 5).
pub fn in_table(kind: Kind, bank: u8, banks: u16) -> bool
    ensures { result ≡ (is_known kind && (ltb bank banks && (not (is_ref kind) || eqb bank 0))) }
{
    is_known(kind) && u16::from(bank) < banks && (!is_ref(kind) || bank == 0)
}

// Rules 3 to 12 of an ACT to bank k at cycle c, where rule 6 is told; a4 is the fourth ACT before it and `refresh` the last REF.
pub fn act_found(t: Table, k: KeptBank, keeps6: bool, a4: u64, refresh: u64, c: u64) -> Option<Rule>
    ensures { result ≡ first_broken (true ∷ true ∷ act_tests_of t (told_bank k) keeps6 (past (stamp_of a4) t.faw c) (past (stamp_of refresh) t.rfc c) c) rules_in_order }
{
    if kept_open(k) {
        Some(Rule::Opened)
    } else if !kept_charged(t, k, c) {
        Some(Rule::Precharge)
    } else if !since(k.act, u32::from(t.rc), c) {
        Some(Rule::Rc)
    } else if !keeps6 {
        Some(Rule::Rrd)
    } else if !since(a4, u32::from(t.faw), c) {
        Some(Rule::Faw)
    } else if !since(refresh, u32::from(t.rfc), c) {
        Some(Rule::Rfc)
    } else {
        None
    }
}

// Rules 11 and 12 of a REF, which are told.
pub fn refresh_found(keeps11: bool, keeps12: bool) -> Option<Rule>
    ensures { result ≡ first_broken (true ∷ true ∷ refresh_tests_of keeps11 keeps12) rules_in_order }
{
    if !keeps11 {
        Some(Rule::Refresh)
    } else if !keeps12 {
        Some(Rule::Rfc)
    } else {
        None
    }
}

// Rules 3 to 9 of a data command to bank k at cycle c, where rule 9 is told.
pub fn data_found(t: Table, k: KeptBank, keeps9: bool, c: u64) -> Option<Rule>
    ensures { result ≡ first_broken (true ∷ true ∷ data_tests_of t (told_bank k) keeps9 c) rules_in_order }
{
    if !kept_open(k) {
        Some(Rule::Opened)
    } else if !since(k.act, u32::from(t.rcd), c) {
        Some(Rule::Rcd)
    } else if !keeps9 {
        Some(Rule::Distance)
    } else {
        None
    }
}

// Rules 2, 11 and 12 of a REF that keeps rule 1, at cycle c. Rule 11 goes over the banks; it is told, in `rests`.
#[tactic(auto, unfolding(crate::specs::ByState::found_ref))]
pub fn found_ref(t: Table, cycle: u64, rests: bool, refresh: u64, c: u64) -> Option<Rule>
    ensures { result ≡ found_ref t cycle rests (stamp_of refresh) c }
{
    if cycle <= c {
        refresh_found(rests, since(refresh, u32::from(t.rfc), c))
    } else {
        Some(Rule::Order)
    }
}
