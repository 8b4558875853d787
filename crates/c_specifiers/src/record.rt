//! Structures and unions (C11 6.7.2.1).

ghost use Rattle.std.specs.Prelude.{◌-◌, Some, None};
ghost use Rattle.c_specifiers.specs.Gives.{Gives};
ghost use Rattle.c_specifiers.specs.SpecifierReaders as spec;

use crate::forms::{Members, Specified};
use crate::grammar::{Grammar, Inside};
use crate::steps::expect_record;
use c_lexer::mark::{MARK_LEFT_BRACE, MARK_RIGHT_BRACE};
use c_reading::Stop;
use c_syntax::Source;
use c_tree::{Spec, list_of_one};
use joern_io::List;
use reading::Turn;

impl<N: Inside> Grammar<N> {
    #[tactic(auto, unfolding(crate::specs::SpecifierReaders::last_member))]
    pub(crate) fn last_member(
        &self,
        members: Members,
        source: &mut Source<'_>,
    ) -> Result<Turn<Members, Members>, Stop>
        requires { N.can_read self.now.inside self.now.room }
        ensures { Gives (λ room inner. spec.last_member room inner members)
            self.now.room (N.readers self.now.inside) source.old result source.new }
    {
        let right = source.expect_mark(MARK_RIGHT_BRACE, self.deeper())?;
        Ok(Turn::Done(members.to(right)?))
    }

    #[tactic(auto, unfolding(crate::specs::SpecifierReaders::next_member))]
    pub(crate) fn next_member(
        &self,
        members: Members,
        source: &mut Source<'_>,
    ) -> Result<Turn<Members, Members>, Stop>
        requires { N.can_read self.now.inside self.now.room }
        ensures { Gives (λ room inner. spec.next_member room inner members)
            self.now.room (N.readers self.now.inside) source.old result source.new }
    {
        let member = self.inner_member(source)?;
        Ok(Turn::Again(members.with(member)?))
    }

    #[tactic(auto, unfolding(crate::specs::SpecifierReaders::member_turn))]
    pub(crate) fn member_turn(
        &self,
        members: Members,
        source: &mut Source<'_>,
    ) -> Result<Turn<Members, Members>, Stop>
        requires { N.can_read self.now.inside self.now.room }
        ensures { Gives (λ room inner. spec.member_turn room inner members)
            self.now.room (N.readers self.now.inside) source.old result source.new }
    {
        if source.is_at_mark(MARK_RIGHT_BRACE) {
            self.last_member(members, source)
        } else {
            self.next_member(members, source)
        }
    }

    pub(crate) fn all_members(
        &self,
        members: Members,
        source: &mut Source<'_>,
    ) -> Result<Members, Stop>
        requires { N.can_read self.now.inside self.now.room }
        ensures { Gives (λ room inner. spec.all_members room inner members)
            self.now.room (N.readers self.now.inside) source.old result source.new }
    {
        let mut members = members;
        for _turn in 0..source.left() {
            match self.member_turn(members, source)? {
                Turn::Again(more) => members = more,
                Turn::Done(all) => return Ok(all),
            }
        }
        Err(source.refusal())
    }

    #[tactic(auto, unfolding(crate::specs::SpecifierReaders::record_body))]
    pub(crate) fn record_body(&self, source: &mut Source<'_>) -> Result<Members, Stop>
        requires { N.can_read self.now.inside self.now.room }
        ensures { Gives spec.record_body
            self.now.room (N.readers self.now.inside) source.old result source.new }
    {
        let left = source.expect_mark(MARK_LEFT_BRACE, self.deeper())?;
        let first = self.inner_member(source)?;
        let members = Members {
            list: list_of_one(self.alloc, first)?,
            marks: list_of_one(self.alloc, left)?,
        };
        self.all_members(members, source)
    }

    #[tactic(auto, unfolding(crate::specs::SpecifierReaders::record_with))]
    pub(crate) fn record_with(
        &self,
        key: u32,
        tag: Option<u32>,
        source: &mut Source<'_>,
    ) -> Result<Spec, Stop>
        requires { N.can_read self.now.inside self.now.room }
        ensures { Gives (λ room inner. spec.record_with room inner key tag)
            self.now.room (N.readers self.now.inside) source.old result source.new }
    {
        let Members { list, marks } = self.record_body(source)?;
        Ok(Spec::Record {
            key,
            tag,
            body: Some(list),
            marks,
        })
    }

    #[tactic(auto, unfolding(crate::specs::SpecifierReaders::tagged_record))]
    pub(crate) fn tagged_record(&self, key: u32, source: &mut Source<'_>) -> Result<Spec, Stop>
        requires { N.can_read self.now.inside self.now.room }
        ensures { Gives (λ room inner. spec.tagged_record room inner key)
            self.now.room (N.readers self.now.inside) source.old result source.new }
    {
        let tag = source.expect_any_name(self.room)?;
        if source.is_at_mark(MARK_LEFT_BRACE) {
            self.record_with(key, Some(tag), source)
        } else {
            Ok(Spec::Record {
                key,
                tag: Some(tag),
                body: None,
                marks: List::new(self.alloc),
            })
        }
    }

    /// 6.7.2.1.
    #[tactic(auto, unfolding(crate::specs::SpecifierReaders::record_spec))]
    pub(crate) fn record_spec(&self, source: &mut Source<'_>) -> Result<Spec, Stop>
        requires { N.can_read self.now.inside self.now.room }
        ensures { Gives spec.record_spec
            self.now.room (N.readers self.now.inside) source.old result source.new }
    {
        let key = expect_record(self.room, source)?;
        if source.is_at_any_name() {
            self.tagged_record(key, source)
        } else {
            self.record_with(key, None, source)
        }
    }

    #[tactic(auto, unfolding(crate::specs::SpecifierReaders::record_word))]
    pub(crate) fn record_word(
        &self,
        specified: Specified,
        source: &mut Source<'_>,
    ) -> Result<Specified, Stop>
        requires { N.can_read self.now.inside self.now.room }
        ensures { Gives (λ room inner. spec.record_word room inner specified)
            self.now.room (N.readers self.now.inside) source.old result source.new }
    {
        let word = self.record_spec(source)?;
        Ok(specified.with(word)?)
    }
}
