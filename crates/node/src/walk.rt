// A walk over the records of a slot, one after another.
ghost use Rattle.std.specs.Prelude.{◌≡◌, ◌+◌, ◌-◌, ◌≤◌, length, drop};
ghost use Rattle.node.specs.Records.{mark_length, record_length, records_length};

use crate::record;
use crate::record::Record;
use crate::slot::Records;

// A record's key length and mark, the length of a value that has the mark, and how long a record is that has both.
#[derive(Clone, Copy)]
struct Like {
    klen: u64,
    mark: u64,
    vlen: usize,
    len: usize,
    ghost value: { vlen ≡ mark_length mark },
    ghost long: { len ≡ 4 + klen + vlen },
}

impl Like {
    // A record of no key and no value.
    const BARE: Like = Like {
        klen: 0,
        mark: 0,
        vlen: 0,
        len: 4,
    };

    // What a record is like that comes after one like this. Where records follow each other that have one mark, none waits
    // for the choice by the mark; where they have one head, none waits for the length of the one before.
    #[tactic(auto, using(crate::specs::laws::slot::SameHead::like))]
    fn next(self, r: Record<'_>) -> Like
        ensures { (result.len ≡ record_length (drop r.entry.at r.entry.slot.now))
            × (r.entry.at + result.len ≤ length r.entry.slot.now) }
    {
        let klen = r.klen();
        let mark = r.mark();
        if mark != self.mark {
            let vlen = record::mark_length(mark);
            return Like {
                klen,
                mark,
                vlen,
                len: 4 + klen as usize + vlen,
            };
        }
        if klen != self.klen {
            return Like {
                klen,
                mark,
                vlen: self.vlen,
                len: 4 + klen as usize + self.vlen,
            };
        }
        self
    }
}

// Where a walk is: the record that comes next, where it starts, and what the one before was like.
#[derive(Clone, Copy, Drop)]
pub struct Walk<'s> {
    records: Records<'s>,
    index: u64,
    pub at: usize,
    like: Like,
    ghost few: { index ≤ records.count },
    ghost start: { at ≡ records_length index records.slot.now },
}

impl<'s> Records<'s> {
    // The walk that goes on at a record, or that is at its end.
    #[tactic(auto, using(crate::specs::laws::slot::SameHead::like_start))]
    pub fn walk_from(self, index: u64, at: usize) -> Walk<'s>
        requires { (index ≤ self.count) × (at ≡ records_length index self.slot.now) }
        ensures { (result.records ≡ self.entry) × (result.index ≡ index) }
    {
        Walk {
            records: self,
            index,
            at,
            like: Like::BARE,
        }
    }

    // The walk over all of them.
    #[tactic(auto, using(crate::specs::laws::slot::Slot::at_start))]
    pub fn walk(self) -> Walk<'s>
        ensures { (result.records ≡ self.entry) × (result.index ≡ 0) }
    {
        self.walk_from(0, 0)
    }
}

impl<'s> Iterator for Walk<'s> {
    ghost use Rattle.std.specs.Iterator.{at_most};
    ghost use Rattle.node.specs.internal.Walk.{GivesRecord};

    // A record, and which it is.
    type Item = (u64, Record<'s>);

    ghost next_gives = { GivesRecord };

    ghost remaining = { λ s. at_most (s.records.count - s.index) };

    #[tactic(auto, using(crate::specs::laws::slot::SameHead::step))]
    fn next(&mut self) -> Option<(u64, Record<'s>)> {
        let i = self.index;
        if self.records.count <= i {
            return None;
        }
        let r = Record {
            slot: self.records.slot,
            at: self.at,
        };
        let like = self.like.next(r);
        *self = Walk {
            records: self.records,
            index: i + 1,
            at: self.at + like.len,
            like,
        };
        Some((i, r))
    }
}
