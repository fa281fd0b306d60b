// Leading records that a search passes. Nearly all of them are seen at once to be below the key, and the loop here does nothing else.
ghost use Rattle.std.specs.Prelude.{◌≡◌, ℕ, ◌+◌, ◌<◌, ◌^◌};
ghost use Rattle.node.specs.Records.{mark_length};
ghost use Rattle.node.specs.internal.Sought.{Passed};

use crate::record;
use crate::record::Record;
use crate::slot::{Records, Run};
use crate::sought::Sought;

// The leading records that are seen to be below the key, as far as `rest` says of each mark what its value adds to the `bare` bytes of a record.
// `after` is where the next record would start if this one had `bare` bytes; it is reckoned a turn early, so that where the next record starts
// waits for one load and two sums.
#[tactic(auto, using(crate::specs::laws::slot::Passed::passed_lies))]
fn run_while<S: Sought, M: Fn(u64) -> Option<u64>>(
    records: Records<'_>,
    s: &S,
    bare: usize,
    rest: M,
) -> Run
    requires small { bare < 2 ^ 17 }
    requires callable { M.IsAlwaysCallable rest }
    requires adds { (m x : ℕ) → M.post rest m (Some x) → bare + x ≡ 4 + mark_length m }
    ensures { Passed S.order (S.wanted s.now) records.entry.count records.entry.slot.now result }
{
    let slot = records.slot;
    let mut at = 0;
    let mut last = 0;
    let mut after = bare;
    for i in 0..records.count {
        let r = Record { slot, at };
        let klen = r.klen();
        match rest(r.mark()) {
            Some(more) => {
                if !s.passes(r, klen) {
                    return Run { count: i, at, last };
                }
                last = at;
                at = after + (klen + more) as usize;
                after = at + bare;
            }
            None => return Run { count: i, at, last },
        }
    }
    Run {
        count: records.count,
        at,
        last,
    }
}

impl Records<'_> {
    // Those of a leaf, ghosts aside: a value has as many bytes as its mark says.
    #[tactic(auto, using(crate::specs::laws::slot::Records::mark_leaf))]
    pub fn run_plain<S: Sought>(self, s: &S) -> Run
        ensures { Passed S.order (S.wanted s.now) self.entry.count self.entry.slot.now result }
    {
        run_while(self, s, 4, |m| (m <= record::MAX_VALUE_LEN).then_some(m))
    }

    // Those that have the first one's mark: all their values have one length.
    pub fn run_marked<S: Sought>(self, s: &S) -> Run
        ensures { Passed S.order (S.wanted s.now) self.entry.count self.entry.slot.now result }
    {
        if self.count == 0 {
            return Run::default();
        }
        let mark = self.record(0).mark();
        let bare = 4 + record::mark_length(mark);
        run_while(self, s, bare, |m| (m == mark).then_some(0))
    }

    // Those of a leaf, or of an index whose children are all loaded, or all not.
    pub fn run_led<S: Sought>(self, s: &S) -> Run
        ensures { Passed S.order (S.wanted s.now) self.entry.count self.entry.slot.now result }
    {
        if 0 < self.count && self.record(0).mark() <= record::MAX_VALUE_LEN {
            return self.run_plain(s);
        }
        self.run_marked(s)
    }
}
