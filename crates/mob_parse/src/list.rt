//! Reads lists: phrases of one kind with a mark between them.
ghost use Rattle.std.specs.Prelude.{◌≡◌, map, true};
ghost use Rattle.mob_grammar.specs.Forms.{Sort, Meaning, Form};
ghost use Rattle.mob_grammar.specs.Reading.{listed, read};
ghost use Rattle.mob_grammar.proofs.Forms.{fits};
ghost use Rattle.mob_parse.specs.Behind.{put_behind};
ghost use Rattle.mob_parse.specs.Cursors.{left, FollowsReading};

use crate::cursor::{Cursor, Syntax};
use mob_grammar::mark::Mark;
use mob_list::fault::Fault;
use mob_list::items::Items;

/// An entry of a list.
pub trait Entry {
    /// The entry in the tree.
    type Made: Drop;

    /// What the entry is in the grammar.
    ghost sort: { Sort };

    /// The entry as contracts see it.
    ghost parts_of: { Self.Made → Meaning sort };

    /// The production of an entry.
    ghost form: { Form sort };

    /// Reads one entry at the front of the remaining tokens.
    fn read(cursor: &mut Cursor<'_>) -> Result<Self::Made, Fault<Syntax>>
        ensures reads { FollowsReading parts_of result (left cursor.new) (read form (left cursor.old)) };

    /// One token tells at each place of an entry which way to go on.
    ghost fit: { fits form ≡ true };
}

impl<'a> Cursor<'a> {
    /// Reads one or more entries with this mark between them.
    ///
    /// `Syntax` at the first token that does not fit; `NoMemory` if an allocation fails.
    #[tactic(auto, using(crate::proofs::Behind::behind_nothing))]
    pub fn list<T: Entry>(&mut self, mark: Mark) -> Result<Items<T::Made>, Fault<Syntax>>
        ensures reads { FollowsReading (map T.parts_of) result (left self.new) (listed mark (read T.form) (left self.old)) }
    {
        self.list_onto::<T>(mark, Items::new(self.alloc))
    }

    /// Reads one or more entries with this mark between them, and appends them to `before`.
    ///
    /// `Syntax` at the first token that does not fit; `NoMemory` if an allocation fails.
    #[tactic(auto, using(mob_grammar::proofs::Steps::listed_goes_on, mob_grammar::proofs::Steps::listed_stops), unfolding(mob_grammar::specs::Reading::listed))]
    pub fn list_onto<T: Entry>(
        &mut self,
        mark: Mark,
        before: Items<T::Made>,
    ) -> Result<Items<T::Made>, Fault<Syntax>>
        ensures reads { FollowsReading (map T.parts_of) result (left self.new) (put_behind (map T.parts_of before) (listed mark (read T.form)) (left self.old)) }
    {
        let mut found = before;
        let first = T::read(self)?;
        found.push(first)?;
        'more: while self.skip(mark) {
            let next = T::read(self)?;
            found.push(next)?;
        }
        Ok(found)
    }
}
