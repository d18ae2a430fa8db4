//! Reads SELECT, DELETE and EXPLAIN, part by part, and whole scripts.
ghost use Rattle.std.specs.Prelude.{◌≡◌, Ok, true, false, map, IfOk, MatchOption, option_map};
ghost use Rattle.mob_ast.specs.Trees.{tree_of, from_of, item_of, key_of, select_of, statement_of};
ghost use Rattle.mob_grammar.specs.Forms.{expression, from, item, key, statement};
ghost use Rattle.mob_grammar.specs.Symbols.{begins, is_name, counts_all, first, rest};
ghost use Rattle.mob_grammar.specs.Reading.{behind_mark, expression_at, read};
ghost use Rattle.mob_grammar.specs.Scripts.{some_name_form, second_name_form, entry_form, joined_form, joins_form, source_form, sources_form, from_form, alias_form, item_form, direction_form, key_form, distinct_form, where_form, group_column_form, by_form, limit_form, ordering_form, select_form, delete_form, statement_form, script_form};
ghost use Rattle.mob_grammar.proofs.Statements.{joined_fits, item_fits, group_column_fits, key_fits, statement_fits};
ghost use Rattle.mob_parse.specs.Behind.{put_behind};
ghost use Rattle.mob_parse.specs.Cursors.{left, FollowsReading};
ghost use Rattle.mob_parse.specs.Items.{count_form, one_form};

use crate::cursor::{Cursor, Syntax};
use crate::list::Entry;
use mob_ast::{Expr, FromTable, Item, Key, SelectTree, Statement, Word};
use mob_grammar::mark::Mark;
use mob_lexemes::lexeme::begins_count;
use mob_list::fault::Fault;
use mob_list::items::Items;

impl<'a> Cursor<'a> {
    /// Whether a name comes next.
    pub fn next_is_name(&self) -> bool
        ensures exact { result ≡ begins is_name (left self.now) }
    {
        match self.lexemes {
            [first, ..] => first.is_name(),
            [] => false,
        }
    }

    #[tactic(auto, unfolding(mob_grammar::specs::Reading::read, mob_grammar::specs::Scripts::some_name_form))]
    fn some_name(&mut self) -> Result<Option<Word>, Fault<Syntax>>
        ensures reads { FollowsReading (λ w. w) result (left self.new) (read some_name_form (left self.old)) }
    {
        Ok(Some(self.name()?))
    }

    // Reads the second name of a table of FROM, with or without AS, if there is one.
    #[tactic(auto, unfolding(mob_grammar::specs::Reading::read, mob_grammar::specs::Scripts::second_name_form, mob_grammar::specs::Scripts::some_name_form, mob_grammar::specs::Reading::if_mark))]
    fn second_name(&mut self) -> Result<Option<Word>, Fault<Syntax>>
        ensures reads { FollowsReading (λ w. w) result (left self.new) (read second_name_form (left self.old)) }
    {
        if self.skip(Mark::As) {
            self.some_name()
        } else if self.next_is_name() {
            self.some_name()
        } else {
            Ok(None)
        }
    }

    // Reads AS and a name, if AS comes next.
    #[tactic(auto, unfolding(mob_grammar::specs::Reading::read, mob_grammar::specs::Scripts::alias_form, mob_grammar::specs::Reading::if_mark))]
    fn alias(&mut self) -> Result<Option<Word>, Fault<Syntax>>
        ensures reads { FollowsReading (λ w. w) result (left self.new) (read alias_form (left self.old)) }
    {
        if self.skip(Mark::As) {
            self.some_name()
        } else {
            Ok(None)
        }
    }

    // Reads AS and a name after a value, if AS comes next.
    fn aliased<T: Drop>(&mut self, value: T) -> Result<(T, Option<Word>), Fault<Syntax>>
        ensures reads { FollowsReading (λ r. r.1) result (left self.new) (read alias_form (left self.old)) }
        ensures same { IfOk result (λ r. r.0 ≡ value) }
    {
        let alias = self.alias()?;
        Ok((value, alias))
    }

    // Reads ASC or DESC, if one comes next. Returns whether it is DESC.
    #[tactic(auto, unfolding(mob_grammar::specs::Reading::read, mob_grammar::specs::Scripts::direction_form, mob_grammar::specs::Reading::if_mark))]
    fn direction(&mut self) -> bool
        ensures reads { read direction_form (left self.old) ≡ Ok (result, left self.new) }
    {
        if self.skip(Mark::Asc) {
            false
        } else {
            self.skip(Mark::Desc)
        }
    }

    // Reads DISTINCT, if it comes next. Returns whether it does.
    #[tactic(auto, unfolding(mob_grammar::specs::Reading::read, mob_grammar::specs::Scripts::distinct_form, mob_grammar::specs::Reading::if_mark))]
    fn distinct(&mut self) -> bool
        ensures reads { read distinct_form (left self.old) ≡ Ok (result, left self.new) }
    {
        self.skip(Mark::Distinct)
    }

    // Skips the first three tokens of `count(*)`, if they come next. Returns the place of the
    // first.
    fn take_count(&mut self) -> Option<u32>
        ensures passes { MatchOption result
            ((counts_all (left self.old) ≡ false) × (left self.new ≡ left self.old))
            (λ p. (counts_all (left self.old) ≡ true) × (p ≡ (first (left self.old)).place) × (left self.new ≡ rest (rest (rest (left self.old))))) }
    {
        match self.lexemes {
            [first, _, _, rest @ ..] if begins_count(self.lexemes) => {
                self.lexemes = rest;
                Some(first.place)
            }
            _ => None,
        }
    }

    // Reads the rest of `count(*)`, after its first three tokens.
    #[tactic(auto, unfolding(mob_grammar::specs::Reading::read, crate::specs::Items::count_form, mob_grammar::specs::Reading::behind_mark))]
    fn count_tail(&mut self, place: u32) -> Result<Item, Fault<Syntax>>
        ensures reads { FollowsReading item_of result (left self.new) (read (count_form place) (left self.old)) }
    {
        self.expect(Mark::Close)?;
        let alias = self.alias()?;
        Ok(Item::CountAll { place, alias })
    }

    // Reads an expression, and its name after AS, if there is one.
    #[tactic(auto, unfolding(mob_grammar::specs::Reading::read, crate::specs::Items::one_form))]
    fn one_item(&mut self) -> Result<Item, Fault<Syntax>>
        ensures reads { FollowsReading item_of result (left self.new) (read one_form (left self.old)) }
    {
        let value = self.expression()?;
        let (value, alias) = self.aliased(value)?;
        Ok(Item::One { value, alias })
    }

    // Reads ON and its condition, after `front`.
    #[tactic(auto, unfolding(mob_grammar::specs::Reading::behind_mark))]
    fn condition<T: Drop>(&mut self, front: T) -> Result<(T, Expr), Fault<Syntax>>
        ensures reads { FollowsReading (λ r. tree_of r.1) result (left self.new) (behind_mark Mark.On expression_at (left self.old)) }
        ensures same { IfOk result (λ r. r.0 ≡ front) }
    {
        self.expect(Mark::On)?;
        let cond = self.expression()?;
        Ok((front, cond))
    }

    // Reads the left-joined tables, if there are any, and appends them.
    #[tactic(auto, unfolding(mob_grammar::specs::Reading::read, mob_grammar::specs::Scripts::joins_form, mob_grammar::specs::Reading::if_mark, crate::specs::Behind::put_behind))]
    fn joins(&mut self, found: Items<FromTable>) -> Result<Items<FromTable>, Fault<Syntax>>
        ensures reads { FollowsReading (map from_of) result (left self.new) (put_behind (map from_of found) (read joins_form) (left self.old)) }
    {
        if self.skip(Mark::Left) {
            self.list_onto::<Joined>(Mark::Left, found)
        } else {
            Ok(found)
        }
    }

    // Reads a table of FROM and its second name.
    #[tactic(auto, unfolding(mob_grammar::specs::Reading::read, mob_grammar::specs::Scripts::entry_form))]
    fn entry(&mut self) -> Result<FromTable, Fault<Syntax>>
        ensures reads { FollowsReading from_of result (left self.new) (read entry_form (left self.old)) }
    {
        let table = self.name()?;
        let alias = self.second_name()?;
        Ok(FromTable {
            table,
            alias,
            on: None,
        })
    }

    // Reads a table and the tables left-joined to it, and appends them.
    #[tactic(auto, unfolding(mob_grammar::specs::Reading::read, mob_grammar::specs::Scripts::source_form, crate::specs::Behind::put_behind))]
    fn source(&mut self, before: Items<FromTable>) -> Result<Items<FromTable>, Fault<Syntax>>
        ensures reads { FollowsReading (map from_of) result (left self.new) (put_behind (map from_of before) (read source_form) (left self.old)) }
    {
        let mut found = before;
        let entry = self.entry()?;
        found.push(entry)?;
        self.joins(found)
    }

    // Reads the tables of FROM.
    #[tactic(auto, unfolding(mob_grammar::specs::Reading::read, mob_grammar::specs::Scripts::sources_form))]
    fn sources(&mut self) -> Result<Items<FromTable>, Fault<Syntax>>
        ensures reads { FollowsReading (map from_of) result (left self.new) (read sources_form (left self.old)) }
    {
        let mut found = self.source(Items::new(self.alloc))?;
        'more: while self.skip(Mark::Comma) {
            found = self.source(found)?;
        }
        Ok(found)
    }

    #[tactic(auto, unfolding(mob_grammar::specs::Reading::read, mob_grammar::specs::Scripts::from_form, mob_grammar::specs::Reading::if_mark))]
    fn from_part(&mut self) -> Result<Items<FromTable>, Fault<Syntax>>
        ensures reads { FollowsReading (map from_of) result (left self.new) (read from_form (left self.old)) }
    {
        if self.skip(Mark::From) {
            self.sources()
        } else {
            Ok(Items::new(self.alloc))
        }
    }

    #[tactic(auto, unfolding(mob_grammar::specs::Reading::read, mob_grammar::specs::Scripts::where_form, mob_grammar::specs::Reading::if_mark))]
    fn where_part(&mut self) -> Result<Option<Expr>, Fault<Syntax>>
        ensures reads { FollowsReading (option_map tree_of) result (left self.new) (read where_form (left self.old)) }
    {
        if self.skip(Mark::Where) {
            Ok(Some(self.expression()?))
        } else {
            Ok(None)
        }
    }

    // Reads this mark, BY, and entries with commas between them, if the mark comes next.
    #[tactic(auto, unfolding(mob_grammar::specs::Reading::read, mob_grammar::specs::Scripts::by_form, mob_grammar::specs::Reading::behind_mark, mob_grammar::specs::Reading::if_mark))]
    fn by_part<T: Entry>(&mut self, mark: Mark) -> Result<Items<T::Made>, Fault<Syntax>>
        ensures reads { FollowsReading (map T.parts_of) result (left self.new) (read (by_form mark T.form) (left self.old)) }
    {
        if self.skip(mark) {
            self.expect(Mark::By)?;
            self.list::<T>(Mark::Comma)
        } else {
            Ok(Items::new(self.alloc))
        }
    }

    #[tactic(auto, unfolding(mob_grammar::specs::Reading::read, mob_grammar::specs::Scripts::limit_form, mob_grammar::specs::Reading::if_mark))]
    fn limit_part(&mut self) -> Result<Option<Word>, Fault<Syntax>>
        ensures reads { FollowsReading (λ w. w) result (left self.new) (read limit_form (left self.old)) }
    {
        if self.skip(Mark::Limit) {
            Ok(Some(self.number()?))
        } else {
            Ok(None)
        }
    }

    // Reads GROUP BY, ORDER BY and LIMIT. Returns `front` with the columns, the keys and the
    // number.
    #[tactic(auto, unfolding(mob_grammar::specs::Reading::read, mob_grammar::specs::Scripts::ordering_form, mob_grammar::specs::Scripts::group_form, mob_grammar::specs::Scripts::order_form))]
    fn ordered<T: Drop>(
        &mut self,
        front: T,
    ) -> Result<(T, Items<Expr>, Items<Key>, Option<Word>), Fault<Syntax>>
        ensures reads { FollowsReading (λ r. (map tree_of r.1, (map key_of r.2, r.3))) result (left self.new) (read ordering_form (left self.old)) }
        ensures same { IfOk result (λ r. r.0 ≡ front) }
    {
        let groups = self.by_part::<GroupColumn>(Mark::Group)?;
        let keys = self.by_part::<Key>(Mark::Order)?;
        let limit = self.limit_part()?;
        Ok((front, groups, keys, limit))
    }

    // Reads a SELECT, after its first word.
    #[tactic(auto, unfolding(mob_grammar::specs::Reading::read, mob_grammar::specs::Scripts::select_form))]
    fn select(&mut self) -> Result<SelectTree, Fault<Syntax>>
        ensures reads { FollowsReading select_of result (left self.new) (read select_form (left self.old)) }
    {
        let distinct = self.distinct();
        let items = self.list::<Item>(Mark::Comma)?;
        let from = self.from_part()?;
        let cond = self.where_part()?;
        let ((items, from, cond), groups, keys, limit) = self.ordered((items, from, cond))?;
        Ok(SelectTree {
            distinct,
            items,
            from,
            cond,
            groups,
            keys,
            limit,
        })
    }

    // Reads a DELETE, after its first word.
    #[tactic(auto, unfolding(mob_grammar::specs::Reading::read, mob_grammar::specs::Scripts::delete_form, mob_grammar::specs::Reading::behind_mark))]
    fn delete(&mut self) -> Result<Statement, Fault<Syntax>>
        ensures reads { FollowsReading statement_of result (left self.new) (read delete_form (left self.old)) }
    {
        self.expect(Mark::From)?;
        let table = self.name()?;
        let cond = self.where_part()?;
        Ok(Statement::Delete { table, cond })
    }

    /// Reads the statements of a script, with `;` between them. It stops before the first token
    /// that continues none of them.
    ///
    /// `Syntax` at the first token that does not fit; `NoMemory` if an allocation fails.
    #[tactic(auto, unfolding(mob_grammar::specs::Reading::read, mob_grammar::specs::Scripts::script_form))]
    pub fn statements(&mut self) -> Result<Items<Statement>, Fault<Syntax>>
        ensures reads { FollowsReading (map statement_of) result (left self.new) (read script_form (left self.old)) }
    {
        self.list::<Statement>(Mark::Semicolon)
    }
}

/// A left-joined table, after LEFT.
pub struct Joined;

impl Entry for Joined {
    type Made = FromTable;

    ghost sort = { from };

    ghost parts_of = { from_of };

    ghost form = { joined_form };

    #[tactic(auto, unfolding(mob_grammar::specs::Reading::read, mob_grammar::specs::Scripts::joined_form, mob_grammar::specs::Reading::behind_mark))]
    fn read(cursor: &mut Cursor<'_>) -> Result<FromTable, Fault<Syntax>> {
        cursor.expect(Mark::Join)?;
        let table = cursor.name()?;
        let alias = cursor.second_name()?;
        let ((table, alias), cond) = cursor.condition((table, alias))?;
        Ok(FromTable {
            table,
            alias,
            on: Some(cond),
        })
    }

    ghost fit = { joined_fits };
}

/// A column of GROUP BY.
pub struct GroupColumn;

impl Entry for GroupColumn {
    type Made = Expr;

    ghost sort = { expression };

    ghost parts_of = { tree_of };

    ghost form = { group_column_form };

    #[tactic(auto, using(crate::proofs::Items::group_table), unfolding(mob_grammar::specs::Reading::read, mob_grammar::specs::Scripts::group_column_form, mob_grammar::specs::Reading::if_mark))]
    fn read(cursor: &mut Cursor<'_>) -> Result<Expr, Fault<Syntax>> {
        let name = cursor.name()?;
        if cursor.skip(Mark::Dot) {
            cursor.table_column(name)
        } else {
            cursor.column(name)
        }
    }

    ghost fit = { group_column_fits };
}

impl Entry for Item {
    type Made = Item;

    ghost sort = { item };

    ghost parts_of = { item_of };

    ghost form = { item_form };

    #[tactic(auto, using(crate::proofs::Items::item_every, crate::proofs::Items::item_count, crate::proofs::Items::item_one))]
    fn read(cursor: &mut Cursor<'_>) -> Result<Item, Fault<Syntax>> {
        if let Some(place) = cursor.take(Mark::Times) {
            Ok(Item::All { place })
        } else if let Some(place) = cursor.take_count() {
            cursor.count_tail(place)
        } else {
            cursor.one_item()
        }
    }

    ghost fit = { item_fits };
}

impl Entry for Key {
    type Made = Key;

    ghost sort = { key };

    ghost parts_of = { key_of };

    ghost form = { key_form };

    #[tactic(auto, unfolding(mob_grammar::specs::Reading::read, mob_grammar::specs::Scripts::key_form))]
    fn read(cursor: &mut Cursor<'_>) -> Result<Key, Fault<Syntax>> {
        let value = cursor.expression()?;
        let descending = cursor.direction();
        Ok(Key { value, descending })
    }

    ghost fit = { key_fits };
}

/// A statement, which may be empty.
impl Entry for Statement {
    type Made = Statement;

    ghost sort = { statement };

    ghost parts_of = { statement_of };

    ghost form = { statement_form };

    #[tactic(auto, unfolding(mob_grammar::specs::Reading::read, mob_grammar::specs::Scripts::statement_form, mob_grammar::specs::Scripts::explain_form, mob_grammar::specs::Reading::if_mark, mob_grammar::specs::Reading::behind_mark))]
    fn read(cursor: &mut Cursor<'_>) -> Result<Statement, Fault<Syntax>> {
        if cursor.skip(Mark::Create) {
            cursor.create()
        } else if cursor.skip(Mark::Insert) {
            cursor.insert()
        } else if cursor.skip(Mark::Copy) {
            cursor.copy()
        } else if cursor.skip(Mark::Delete) {
            cursor.delete()
        } else if cursor.skip(Mark::Select) {
            Ok(Statement::Select(cursor.select()?))
        } else if cursor.skip(Mark::Explain) {
            cursor.expect(Mark::Select)?;
            Ok(Statement::Explain(cursor.select()?))
        } else {
            Ok(Statement::Empty)
        }
    }

    ghost fit = { statement_fits };
}
