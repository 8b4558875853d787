//! Enumerations and their constants (C11 6.7.2.2).

ghost use Rattle.std.specs.Prelude.{◌-◌, Some, None};
ghost use Rattle.c_specifiers.specs.Gives.{Gives};
ghost use Rattle.c_specifiers.specs.SpecifierReaders as spec;

use crate::forms::{Enumerators, NamedEnumerator, Specified, Word};
use crate::grammar::{Grammar, Inside};
use crate::steps::{declare_word, expect_word};
use c_lexer::keyword::KEY_ENUM;
use c_lexer::mark::{MARK_COMMA, MARK_EQUAL, MARK_LEFT_BRACE, MARK_RIGHT_BRACE};
use c_reading::Stop;
use c_syntax::{AssignForm, Source};
use c_tree::{Enumerator, Expr, Spec, list_of_one};
use joern_io::List;
use reading::Turn;

impl<N: Inside> Grammar<N> {
    #[tactic(auto, unfolding(crate::specs::SpecifierReaders::enumerator_value))]
    pub(crate) fn enumerator_value<'t>(
        &self,
        word: Word<'t>,
        source: &mut Source<'t>,
    ) -> Result<NamedEnumerator<'t>, Stop>
        requires { N.can_read self.now.inside self.now.room }
        ensures { Gives (λ room inner. spec.enumerator_value room inner word.entry)
            self.now.room (N.readers self.now.inside) source.old result source.new }
    {
        let equals = source.expect_mark(MARK_EQUAL, self.deeper())?;
        let value = self.inner_assign(AssignForm::Constant, source)?;
        let enumerator = Enumerator {
            name: word.token,
            value: Some(Expr::sole(self.alloc, value)?),
            marks: list_of_one(self.alloc, equals)?,
        };
        Ok(NamedEnumerator {
            enumerator,
            name: word,
        })
    }

    #[tactic(auto, unfolding(crate::specs::SpecifierReaders::undeclared_enumerator))]
    pub(crate) fn undeclared_enumerator<'t>(
        &self,
        source: &mut Source<'t>,
    ) -> Result<NamedEnumerator<'t>, Stop>
        requires { N.can_read self.now.inside self.now.room }
        ensures { Gives spec.undeclared_enumerator
            self.now.room (N.readers self.now.inside) source.old result source.new }
    {
        let word = expect_word(self.deeper(), source)?;
        if source.is_at_mark(MARK_EQUAL) {
            return self.enumerator_value(word, source);
        }
        let enumerator = Enumerator {
            name: word.token,
            value: None,
            marks: List::new(self.alloc),
        };
        Ok(NamedEnumerator {
            enumerator,
            name: word,
        })
    }

    /// An enumerator, whose name is declared behind it.
    #[tactic(auto, unfolding(crate::specs::SpecifierReaders::enumerator))]
    pub(crate) fn enumerator(&self, source: &mut Source<'_>) -> Result<Enumerator, Stop>
        requires { N.can_read self.now.inside self.now.room }
        ensures { Gives spec.enumerator
            self.now.room (N.readers self.now.inside) source.old result source.new }
    {
        let NamedEnumerator { enumerator, name } = self.undeclared_enumerator(source)?;
        declare_word(&name, false, source)?;
        Ok(enumerator)
    }

    #[tactic(auto, unfolding(crate::specs::SpecifierReaders::last_enumerator))]
    pub(crate) fn last_enumerator(
        &self,
        enumerators: Enumerators,
        source: &mut Source<'_>,
    ) -> Result<Turn<Enumerators, Enumerators>, Stop>
        requires { N.can_read self.now.inside self.now.room }
        ensures { Gives (λ room inner. spec.last_enumerator room inner enumerators)
            self.now.room (N.readers self.now.inside) source.old result source.new }
    {
        let right = source.expect_mark(MARK_RIGHT_BRACE, self.deeper())?;
        Ok(Turn::Done(enumerators.to(right)?))
    }

    #[tactic(auto, unfolding(crate::specs::SpecifierReaders::next_enumerator))]
    pub(crate) fn next_enumerator(
        &self,
        enumerators: Enumerators,
        source: &mut Source<'_>,
    ) -> Result<Turn<Enumerators, Enumerators>, Stop>
        requires { N.can_read self.now.inside self.now.room }
        ensures { Gives (λ room inner. spec.next_enumerator room inner enumerators)
            self.now.room (N.readers self.now.inside) source.old result source.new }
    {
        let next = self.enumerator(source)?;
        Ok(Turn::Again(enumerators.with(next)?))
    }

    #[tactic(auto, unfolding(crate::specs::SpecifierReaders::comma_enumerator))]
    pub(crate) fn comma_enumerator(
        &self,
        enumerators: Enumerators,
        source: &mut Source<'_>,
    ) -> Result<Turn<Enumerators, Enumerators>, Stop>
        requires { N.can_read self.now.inside self.now.room }
        ensures { Gives (λ room inner. spec.comma_enumerator room inner enumerators)
            self.now.room (N.readers self.now.inside) source.old result source.new }
    {
        let comma = source.expect_mark(MARK_COMMA, self.deeper())?;
        let enumerators = enumerators.to(comma)?;
        if source.is_at_mark(MARK_RIGHT_BRACE) {
            self.last_enumerator(enumerators, source)
        } else {
            self.next_enumerator(enumerators, source)
        }
    }

    #[tactic(auto, unfolding(crate::specs::SpecifierReaders::enumerator_turn))]
    pub(crate) fn enumerator_turn(
        &self,
        enumerators: Enumerators,
        source: &mut Source<'_>,
    ) -> Result<Turn<Enumerators, Enumerators>, Stop>
        requires { N.can_read self.now.inside self.now.room }
        ensures { Gives (λ room inner. spec.enumerator_turn room inner enumerators)
            self.now.room (N.readers self.now.inside) source.old result source.new }
    {
        if source.is_at_mark(MARK_COMMA) {
            self.comma_enumerator(enumerators, source)
        } else {
            self.last_enumerator(enumerators, source)
        }
    }

    pub(crate) fn all_enumerators(
        &self,
        enumerators: Enumerators,
        source: &mut Source<'_>,
    ) -> Result<Enumerators, Stop>
        requires { N.can_read self.now.inside self.now.room }
        ensures { Gives (λ room inner. spec.all_enumerators room inner enumerators)
            self.now.room (N.readers self.now.inside) source.old result source.new }
    {
        let mut enumerators = enumerators;
        for _turn in 0..source.left() {
            match self.enumerator_turn(enumerators, source)? {
                Turn::Again(more) => enumerators = more,
                Turn::Done(all) => return Ok(all),
            }
        }
        Err(source.refusal())
    }

    #[tactic(auto, unfolding(crate::specs::SpecifierReaders::enumeration_body))]
    pub(crate) fn enumeration_body(&self, source: &mut Source<'_>) -> Result<Enumerators, Stop>
        requires { N.can_read self.now.inside self.now.room }
        ensures { Gives spec.enumeration_body
            self.now.room (N.readers self.now.inside) source.old result source.new }
    {
        let left = source.expect_mark(MARK_LEFT_BRACE, self.deeper())?;
        let first = self.enumerator(source)?;
        let enumerators = Enumerators {
            list: list_of_one(self.alloc, first)?,
            marks: list_of_one(self.alloc, left)?,
        };
        self.all_enumerators(enumerators, source)
    }

    #[tactic(auto, unfolding(crate::specs::SpecifierReaders::enumeration_with))]
    pub(crate) fn enumeration_with(
        &self,
        key: u32,
        tag: Option<u32>,
        source: &mut Source<'_>,
    ) -> Result<Spec, Stop>
        requires { N.can_read self.now.inside self.now.room }
        ensures { Gives (λ room inner. spec.enumeration_with room inner key tag)
            self.now.room (N.readers self.now.inside) source.old result source.new }
    {
        let Enumerators { list, marks } = self.enumeration_body(source)?;
        Ok(Spec::Enumeration {
            key,
            tag,
            body: Some(list),
            marks,
        })
    }

    #[tactic(auto, unfolding(crate::specs::SpecifierReaders::tagged_enumeration))]
    pub(crate) fn tagged_enumeration(&self, key: u32, source: &mut Source<'_>) -> Result<Spec, Stop>
        requires { N.can_read self.now.inside self.now.room }
        ensures { Gives (λ room inner. spec.tagged_enumeration room inner key)
            self.now.room (N.readers self.now.inside) source.old result source.new }
    {
        let tag = source.expect_any_name(self.room)?;
        if source.is_at_mark(MARK_LEFT_BRACE) {
            self.enumeration_with(key, Some(tag), source)
        } else {
            Ok(Spec::Enumeration {
                key,
                tag: Some(tag),
                body: None,
                marks: List::new(self.alloc),
            })
        }
    }

    /// 6.7.2.2.
    #[tactic(auto, unfolding(crate::specs::SpecifierReaders::enumeration_spec))]
    pub(crate) fn enumeration_spec(&self, source: &mut Source<'_>) -> Result<Spec, Stop>
        requires { N.can_read self.now.inside self.now.room }
        ensures { Gives spec.enumeration_spec
            self.now.room (N.readers self.now.inside) source.old result source.new }
    {
        let key = source.expect_key(KEY_ENUM, self.room)?;
        if source.is_at_any_name() {
            self.tagged_enumeration(key, source)
        } else {
            self.enumeration_with(key, None, source)
        }
    }

    #[tactic(auto, unfolding(crate::specs::SpecifierReaders::enumeration_word))]
    pub(crate) fn enumeration_word(
        &self,
        specified: Specified,
        source: &mut Source<'_>,
    ) -> Result<Specified, Stop>
        requires { N.can_read self.now.inside self.now.room }
        ensures { Gives (λ room inner. spec.enumeration_word room inner specified)
            self.now.room (N.readers self.now.inside) source.old result source.new }
    {
        let word = self.enumeration_spec(source)?;
        Ok(specified.with(word)?)
    }
}
