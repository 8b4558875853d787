//! Declaration specifiers, words and types in any order (C11 6.7.1 to 6.7.5).

ghost use Rattle.std.specs.Prelude.{◌-◌};
ghost use Rattle.c_specifiers.specs.Gives.{Gives};
ghost use Rattle.c_specifiers.specs.SpecifierReaders as spec;

use crate::forms::{Place, Specified};
use crate::grammar::{Grammar, Inside};
use crate::steps::{is_at_more_specifiers, is_at_record, is_at_type_specifier};
use c_lexer::keyword::KEY_ATOMIC;
use c_lexer::mark::{MARK_LEFT_PAREN, MARK_RIGHT_PAREN};
use c_reading::Stop;
use c_syntax::Source;
use c_tree::{Spec, two_marks};
use joern_io::Boxed;
use reading::Turn;

impl<N: Inside> Grammar<N> {
    #[tactic(auto, unfolding(crate::specs::SpecifierReaders::basic_word))]
    pub(crate) fn basic_word(
        &self,
        specified: Specified,
        source: &mut Source<'_>,
    ) -> Result<Specified, Stop>
        requires { N.can_read self.now.inside self.now.room }
        ensures { Gives (λ room inner. spec.basic_word room inner specified)
            self.now.room (N.readers self.now.inside) source.old result source.new }
    {
        let key = source.expect_basic_type(self.room)?;
        Ok(specified.with(Spec::Basic(key))?)
    }

    /// 6.7.2, but for typedef names and `_Atomic`.
    #[tactic(auto, unfolding(crate::specs::SpecifierReaders::type_word))]
    pub(crate) fn type_word(
        &self,
        specified: Specified,
        source: &mut Source<'_>,
    ) -> Result<Specified, Stop>
        requires { N.can_read self.now.inside self.now.room }
        ensures { Gives (λ room inner. spec.type_word room inner specified)
            self.now.room (N.readers self.now.inside) source.old result source.new }
    {
        if source.is_at_basic_type() {
            self.basic_word(specified, source)
        } else if is_at_record(source) {
            self.record_word(specified, source)
        } else {
            self.enumeration_word(specified, source)
        }
    }

    /// 6.7.2.4, behind `_Atomic`.
    #[tactic(auto, unfolding(crate::specs::SpecifierReaders::atomic_type))]
    pub(crate) fn atomic_type(
        &self,
        specified: Specified,
        key: u32,
        source: &mut Source<'_>,
    ) -> Result<Specified, Stop>
        requires { N.can_read self.now.inside self.now.room }
        ensures { Gives (λ room inner. spec.atomic_type room inner specified key)
            self.now.room (N.readers self.now.inside) source.old result source.new }
    {
        let left = source.expect_mark(MARK_LEFT_PAREN, self.deeper())?;
        let named = self.inner_type_name(source)?;
        let right = source.expect_mark(MARK_RIGHT_PAREN, self.deeper())?;
        let mut marks = two_marks(self.alloc, key, left)?;
        marks.push(right)?;
        let named = Boxed::new(self.alloc, named)?;
        Ok(specified.with(Spec::Atomic(named, marks))?)
    }

    #[tactic(auto, unfolding(crate::specs::SpecifierReaders::typedef_name_turn))]
    pub(crate) fn typedef_name_turn(
        &self,
        specified: Specified,
        source: &mut Source<'_>,
    ) -> Result<Turn<Specified, Specified>, Stop>
        requires { N.can_read self.now.inside self.now.room }
        ensures { Gives (λ room inner. spec.typedef_name_turn room inner specified)
            self.now.room (N.readers self.now.inside) source.old result source.new }
    {
        let name = source.expect_typedef_name(self.room)?;
        Ok(Turn::Done(specified.with(Spec::Named(name))?))
    }

    #[tactic(auto, unfolding(crate::specs::SpecifierReaders::atomic_type_turn))]
    pub(crate) fn atomic_type_turn(
        &self,
        specified: Specified,
        key: u32,
        source: &mut Source<'_>,
    ) -> Result<Turn<Specified, Specified>, Stop>
        requires { N.can_read self.now.inside self.now.room }
        ensures { Gives (λ room inner. spec.atomic_type_turn room inner specified key)
            self.now.room (N.readers self.now.inside) source.old result source.new }
    {
        Ok(Turn::Done(self.atomic_type(specified, key, source)?))
    }

    #[tactic(auto, unfolding(crate::specs::SpecifierReaders::atomic_turn))]
    pub(crate) fn atomic_turn(
        &self,
        specified: Specified,
        source: &mut Source<'_>,
    ) -> Result<Turn<Specified, Specified>, Stop>
        requires { N.can_read self.now.inside self.now.room }
        ensures { Gives (λ room inner. spec.atomic_turn room inner specified)
            self.now.room (N.readers self.now.inside) source.old result source.new }
    {
        let key = source.expect_key(KEY_ATOMIC, self.room)?;
        if source.is_at_mark(MARK_LEFT_PAREN) {
            self.atomic_type_turn(specified, key, source)
        } else {
            Ok(Turn::Again(specified.with_atomic(key)?))
        }
    }

    #[tactic(auto, unfolding(crate::specs::SpecifierReaders::type_turn))]
    pub(crate) fn type_turn(
        &self,
        specified: Specified,
        source: &mut Source<'_>,
    ) -> Result<Turn<Specified, Specified>, Stop>
        requires { N.can_read self.now.inside self.now.room }
        ensures { Gives (λ room inner. spec.type_turn room inner specified)
            self.now.room (N.readers self.now.inside) source.old result source.new }
    {
        Ok(Turn::Done(self.type_word(specified, source)?))
    }

    #[tactic(auto, unfolding(crate::specs::SpecifierReaders::modifier_turn))]
    pub(crate) fn modifier_turn(
        &self,
        place: Place,
        specified: Specified,
        source: &mut Source<'_>,
    ) -> Result<Turn<Specified, Specified>, Stop>
        requires { N.can_read self.now.inside self.now.room }
        ensures { Gives (λ room inner. spec.modifier_turn room inner place specified)
            self.now.room (N.readers self.now.inside) source.old result source.new }
    {
        Ok(Turn::Again(self.modifier(place, specified, source)?))
    }

    /// A specifier, before which no type specifier stands.
    #[tactic(auto, unfolding(crate::specs::SpecifierReaders::untyped_turn))]
    pub(crate) fn untyped_turn(
        &self,
        place: Place,
        specified: Specified,
        source: &mut Source<'_>,
    ) -> Result<Turn<Specified, Specified>, Stop>
        requires { N.can_read self.now.inside self.now.room }
        ensures { Gives (λ room inner. spec.untyped_turn room inner place specified)
            self.now.room (N.readers self.now.inside) source.old result source.new }
    {
        if source.is_at_typedef_name() {
            self.typedef_name_turn(specified, source)
        } else if source.is_at_key(KEY_ATOMIC) {
            self.atomic_turn(specified, source)
        } else if is_at_type_specifier(source) {
            self.type_turn(specified, source)
        } else {
            self.modifier_turn(place, specified, source)
        }
    }

    pub(crate) fn up_to_type(
        &self,
        place: Place,
        source: &mut Source<'_>,
    ) -> Result<Specified, Stop>
        requires { N.can_read self.now.inside self.now.room }
        ensures { Gives (λ room inner. spec.up_to_type room inner place)
            self.now.room (N.readers self.now.inside) source.old result source.new }
    {
        let mut specified = Specified::none(self.alloc);
        for _turn in 0..source.left() {
            match self.untyped_turn(place, specified, source)? {
                Turn::Again(more) => specified = more,
                Turn::Done(typed) => return Ok(typed),
            }
        }
        Err(source.refusal())
    }

    #[tactic(auto, unfolding(crate::specs::SpecifierReaders::atomic_word))]
    pub(crate) fn atomic_word(
        &self,
        specified: Specified,
        source: &mut Source<'_>,
    ) -> Result<Specified, Stop>
        requires { N.can_read self.now.inside self.now.room }
        ensures { Gives (λ room inner. spec.atomic_word room inner specified)
            self.now.room (N.readers self.now.inside) source.old result source.new }
    {
        let key = source.expect_key(KEY_ATOMIC, self.room)?;
        if source.is_at_mark(MARK_LEFT_PAREN) {
            self.atomic_type(specified, key, source)
        } else {
            Ok(specified.with_atomic(key)?)
        }
    }

    /// A specifier, before which a type specifier stands.
    #[tactic(auto, unfolding(crate::specs::SpecifierReaders::more_words))]
    pub(crate) fn more_words(
        &self,
        place: Place,
        specified: Specified,
        source: &mut Source<'_>,
    ) -> Result<Specified, Stop>
        requires { N.can_read self.now.inside self.now.room }
        ensures { Gives (λ room inner. spec.more_words room inner place specified)
            self.now.room (N.readers self.now.inside) source.old result source.new }
    {
        if source.is_at_key(KEY_ATOMIC) {
            self.atomic_word(specified, source)
        } else if is_at_type_specifier(source) {
            self.type_word(specified, source)
        } else {
            self.modifier(place, specified, source)
        }
    }

    pub(crate) fn all_words(
        &self,
        place: Place,
        specified: Specified,
        source: &mut Source<'_>,
    ) -> Result<Specified, Stop>
        requires { N.can_read self.now.inside self.now.room }
        ensures { Gives (λ room inner. spec.all_words room inner place specified)
            self.now.room (N.readers self.now.inside) source.old result source.new }
    {
        let mut specified = specified;
        for _turn in 0..source.left() {
            if !is_at_more_specifiers(place, source) {
                return Ok(specified);
            }
            specified = self.more_words(place, specified, source)?;
        }
        Ok(specified)
    }

    /// 6.7.
    #[tactic(auto, unfolding(crate::specs::SpecifierReaders::specifiers))]
    pub fn specifiers(&self, place: Place, source: &mut Source<'_>) -> Result<Specified, Stop>
        requires { N.can_read self.now.inside self.now.room }
        ensures { Gives (λ room inner. spec.specifiers room inner place)
            self.now.room (N.readers self.now.inside) source.old result source.new }
    {
        let typed = self.up_to_type(place, source)?;
        self.all_words(place, typed, source)
    }
}
