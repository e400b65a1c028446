// The judge's loop over a copy's records.
ghost use Rattle.std.specs.Prelude.{◌≡◌, suc, ◌≤◌, ◌<◌};
ghost use Rattle.records.specs.Command.{commands_in};
ghost use Rattle.rules.specs.declared.verdict.Verdict.TheVariants.{Accepted};
ghost use Rattle.rules.specs.Verdict.{judge_from};
ghost use Rattle.rules.specs.Pattern.{copy};
ghost use Rattle.rules.proofs.history.JudgeState.{Judging};
ghost use Rattle.timing.specs.Kept.{told};
ghost use Rattle.copies.specs.Seen.{record_count, whole};

use crate::copy::{Copied, all_shut, end_of, shift_of};
use crate::grouping::Grouping;
use broken::found::{found_ref, in_table};
use commands::command::command_at;
use distances::kinds::{is_act, is_closing, is_ref, is_wr};
use grouped::groups::{group_moved, group_opened};
use rules::verdict::{Rule, Verdict};
use timing::kept::{Kept, KeptBank, kept_after, kept_rests};

// Copy k + 1 of the schedule, after k copies that the state sums up. The state is a local that is changed in place, record by record.
pub fn judge_records<G: Grouping + Copy>(
    grouping: G,
    s: &[u8],
    length: u32,
    k: u32,
    start: Kept,
) -> Copied
    requires few { record_count s.now ≤ 69632 }
    requires five { k < 5 }
    requires sums { Judging (G.table_of grouping) (whole length s.now k) (told start) }
    ensures verdict { result.verdict ≡ judge_from (G.table_of grouping) (copy length (commands_in s.now) k) 0 (whole length s.now k) }
    ensures state { result.verdict ≡ Accepted → Judging (G.table_of grouping) (whole length s.now (suc k)) (told result.state) }
{
    let t = grouping.table();
    let n = s.len() / 8;
    let shift = shift_of(length, k);
    let mut state = start;
    for i in 0..n {
        let r = command_at(s, i * 8);
        let c = r.cycle as u64 + shift;
        let later = c + 1;
        let number = i as u32;
        if !in_table(r.kind, r.bank, t.banks) {
            return Copied {
                state,
                verdict: Verdict::Refused(Rule::Range, number),
            };
        }
        if is_ref(r.kind) {
            match found_ref(t, state.cycle, kept_rests(t, state, c), state.refresh, c) {
                Some(x) => {
                    return Copied {
                        state,
                        verdict: Verdict::Refused(x, number),
                    };
                }
                None => {
                    state.cycle = later;
                    state.acts += 1;
                    state.refresh = later;
                }
            }
        } else {
            let at = r.bank as usize;
            let g = grouping.group(r.bank);
            let bank = state.banks[at];
            let own = state.groups[g];
            match grouping.found(
                state.cycle,
                bank,
                state.groups,
                g,
                state.a4,
                state.refresh,
                r.kind,
                c,
            ) {
                Some(x) => {
                    return Copied {
                        state,
                        verdict: Verdict::Refused(x, number),
                    };
                }
                None => {
                    state.cycle = later;
                    if is_act(r.kind) {
                        state.groups[g] = group_opened(own, later);
                        state.acts += 1;
                        state.banks[at] = KeptBank {
                            opened: 1,
                            act: later,
                            rd: 0,
                            wr: 0,
                        };
                        state.a4 = state.a3;
                        state.a3 = state.a2;
                        state.a2 = state.a1;
                        state.a1 = later;
                    } else {
                        let write = is_wr(r.kind);
                        state.groups[g] = group_moved(own, write, later);
                        state.datas += 1;
                        state.banks[at] = kept_after(bank, write, is_closing(r.kind), later);
                    }
                }
            }
        }
    }
    Copied {
        state,
        verdict: end_of(all_shut(state, t.banks), n as u32),
    }
}
