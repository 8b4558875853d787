//! Words that say no type: storage classes, qualifiers, alignments (C11 6.7.1, 6.7.3 to 6.7.5).

ghost use Rattle.std.specs.Prelude.{◌-◌};
ghost use Rattle.c_specifiers.specs.Gives.{Gives};
ghost use Rattle.c_specifiers.specs.SpecifierReaders as spec;

use crate::forms::{Place, Specified};
use crate::grammar::{Grammar, Inside};
use crate::steps::{
    expect_function_specifier, expect_plain_qualifier, expect_storage_class,
    is_at_function_specifier, is_at_specifiers, is_at_storage_class,
};
use c_lexer::keyword::{KEY_ALIGNAS, KEY_REGISTER, KEY_TYPEDEF};
use c_lexer::mark::{MARK_LEFT_PAREN, MARK_RIGHT_PAREN};
use c_reading::Stop;
use c_syntax::{AssignForm, Source};
use c_tree::{Expr, Spec, two_marks};
use joern_io::{Boxed, List};

impl<N: Inside> Grammar<N> {
    #[tactic(auto, unfolding(crate::specs::SpecifierReaders::aligned_like))]
    pub(crate) fn aligned_like(
        &self,
        specified: Specified,
        marks: List<u32>,
        source: &mut Source<'_>,
    ) -> Result<Specified, Stop>
        requires { N.can_read self.now.inside self.now.room }
        ensures { Gives (λ room inner. spec.aligned_like room inner specified marks)
            self.now.room (N.readers self.now.inside) source.old result source.new }
    {
        let mut marks = marks;
        let named = self.inner_type_name(source)?;
        marks.push(source.expect_mark(MARK_RIGHT_PAREN, self.deeper())?)?;
        let named = Boxed::new(self.alloc, named)?;
        Ok(specified.with(Spec::AlignType(named, marks))?)
    }

    #[tactic(auto, unfolding(crate::specs::SpecifierReaders::aligned_to))]
    pub(crate) fn aligned_to(
        &self,
        specified: Specified,
        marks: List<u32>,
        source: &mut Source<'_>,
    ) -> Result<Specified, Stop>
        requires { N.can_read self.now.inside self.now.room }
        ensures { Gives (λ room inner. spec.aligned_to room inner specified marks)
            self.now.room (N.readers self.now.inside) source.old result source.new }
    {
        let mut marks = marks;
        let value = self.inner_assign(AssignForm::Constant, source)?;
        marks.push(source.expect_mark(MARK_RIGHT_PAREN, self.deeper())?)?;
        let value = Expr::sole(self.alloc, value)?;
        Ok(specified.with(Spec::AlignExpr(value, marks))?)
    }

    /// 6.7.5.
    #[tactic(auto, unfolding(crate::specs::SpecifierReaders::aligned))]
    pub(crate) fn aligned(
        &self,
        specified: Specified,
        source: &mut Source<'_>,
    ) -> Result<Specified, Stop>
        requires { N.can_read self.now.inside self.now.room }
        ensures { Gives (λ room inner. spec.aligned room inner specified)
            self.now.room (N.readers self.now.inside) source.old result source.new }
    {
        let key = source.expect_key(KEY_ALIGNAS, self.room)?;
        let left = source.expect_mark(MARK_LEFT_PAREN, self.deeper())?;
        let marks = two_marks(self.alloc, key, left)?;
        if is_at_specifiers(Place::Nameless, source) {
            self.aligned_like(specified, marks, source)
        } else {
            self.aligned_to(specified, marks, source)
        }
    }

    #[tactic(auto, unfolding(crate::specs::SpecifierReaders::typedef_word))]
    pub(crate) fn typedef_word(
        &self,
        specified: Specified,
        source: &mut Source<'_>,
    ) -> Result<Specified, Stop>
        requires { N.can_read self.now.inside self.now.room }
        ensures { Gives (λ room inner. spec.typedef_word room inner specified)
            self.now.room (N.readers self.now.inside) source.old result source.new }
    {
        let key = source.expect_key(KEY_TYPEDEF, self.room)?;
        Ok(specified.with_typedef(key)?)
    }

    #[tactic(auto, unfolding(crate::specs::SpecifierReaders::storage_word))]
    pub(crate) fn storage_word(
        &self,
        specified: Specified,
        source: &mut Source<'_>,
    ) -> Result<Specified, Stop>
        requires { N.can_read self.now.inside self.now.room }
        ensures { Gives (λ room inner. spec.storage_word room inner specified)
            self.now.room (N.readers self.now.inside) source.old result source.new }
    {
        let key = expect_storage_class(self.room, source)?;
        Ok(specified.with(Spec::Storage(key))?)
    }

    #[tactic(auto, unfolding(crate::specs::SpecifierReaders::register_word))]
    pub(crate) fn register_word(
        &self,
        specified: Specified,
        source: &mut Source<'_>,
    ) -> Result<Specified, Stop>
        requires { N.can_read self.now.inside self.now.room }
        ensures { Gives (λ room inner. spec.register_word room inner specified)
            self.now.room (N.readers self.now.inside) source.old result source.new }
    {
        let key = source.expect_key(KEY_REGISTER, self.room)?;
        Ok(specified.with(Spec::Storage(key))?)
    }

    #[tactic(auto, unfolding(crate::specs::SpecifierReaders::function_word))]
    pub(crate) fn function_word(
        &self,
        specified: Specified,
        source: &mut Source<'_>,
    ) -> Result<Specified, Stop>
        requires { N.can_read self.now.inside self.now.room }
        ensures { Gives (λ room inner. spec.function_word room inner specified)
            self.now.room (N.readers self.now.inside) source.old result source.new }
    {
        let key = expect_function_specifier(self.room, source)?;
        Ok(specified.with(Spec::Function(key))?)
    }

    #[tactic(auto, unfolding(crate::specs::SpecifierReaders::qualifier_word))]
    pub(crate) fn qualifier_word(
        &self,
        specified: Specified,
        source: &mut Source<'_>,
    ) -> Result<Specified, Stop>
        requires { N.can_read self.now.inside self.now.room }
        ensures { Gives (λ room inner. spec.qualifier_word room inner specified)
            self.now.room (N.readers self.now.inside) source.old result source.new }
    {
        let key = expect_plain_qualifier(self.room, source)?;
        Ok(specified.with(Spec::Qualifier(key))?)
    }

    #[tactic(auto, unfolding(crate::specs::SpecifierReaders::aligned_modifier))]
    pub(crate) fn aligned_modifier(
        &self,
        specified: Specified,
        source: &mut Source<'_>,
    ) -> Result<Specified, Stop>
        requires { N.can_read self.now.inside self.now.room }
        ensures { Gives (λ room inner. spec.aligned_modifier room inner specified)
            self.now.room (N.readers self.now.inside) source.old result source.new }
    {
        if source.is_at_key(KEY_ALIGNAS) {
            self.aligned(specified, source)
        } else {
            self.qualifier_word(specified, source)
        }
    }

    #[tactic(auto, unfolding(crate::specs::SpecifierReaders::function_modifier))]
    pub(crate) fn function_modifier(
        &self,
        specified: Specified,
        source: &mut Source<'_>,
    ) -> Result<Specified, Stop>
        requires { N.can_read self.now.inside self.now.room }
        ensures { Gives (λ room inner. spec.function_modifier room inner specified)
            self.now.room (N.readers self.now.inside) source.old result source.new }
    {
        if is_at_function_specifier(source) {
            self.function_word(specified, source)
        } else {
            self.aligned_modifier(specified, source)
        }
    }

    #[tactic(auto, unfolding(crate::specs::SpecifierReaders::definition_modifier))]
    pub(crate) fn definition_modifier(
        &self,
        specified: Specified,
        source: &mut Source<'_>,
    ) -> Result<Specified, Stop>
        requires { N.can_read self.now.inside self.now.room }
        ensures { Gives (λ room inner. spec.definition_modifier room inner specified)
            self.now.room (N.readers self.now.inside) source.old result source.new }
    {
        if is_at_storage_class(source) {
            self.storage_word(specified, source)
        } else {
            self.function_modifier(specified, source)
        }
    }

    #[tactic(auto, unfolding(crate::specs::SpecifierReaders::ordinary_modifier))]
    pub(crate) fn ordinary_modifier(
        &self,
        specified: Specified,
        source: &mut Source<'_>,
    ) -> Result<Specified, Stop>
        requires { N.can_read self.now.inside self.now.room }
        ensures { Gives (λ room inner. spec.ordinary_modifier room inner specified)
            self.now.room (N.readers self.now.inside) source.old result source.new }
    {
        if source.is_at_key(KEY_TYPEDEF) {
            self.typedef_word(specified, source)
        } else {
            self.definition_modifier(specified, source)
        }
    }

    #[tactic(auto, unfolding(crate::specs::SpecifierReaders::parameter_modifier))]
    pub(crate) fn parameter_modifier(
        &self,
        specified: Specified,
        source: &mut Source<'_>,
    ) -> Result<Specified, Stop>
        requires { N.can_read self.now.inside self.now.room }
        ensures { Gives (λ room inner. spec.parameter_modifier room inner specified)
            self.now.room (N.readers self.now.inside) source.old result source.new }
    {
        if source.is_at_key(KEY_REGISTER) {
            self.register_word(specified, source)
        } else {
            self.function_modifier(specified, source)
        }
    }

    /// A specifier that is no type specifier.
    pub(crate) fn modifier(
        &self,
        place: Place,
        specified: Specified,
        source: &mut Source<'_>,
    ) -> Result<Specified, Stop>
        requires { N.can_read self.now.inside self.now.room }
        ensures { Gives (λ room inner. spec.modifier room inner place specified)
            self.now.room (N.readers self.now.inside) source.old result source.new }
    {
        match place {
            Place::Ordinary => self.ordinary_modifier(specified, source),
            Place::Definition => self.definition_modifier(specified, source),
            Place::Parameter => self.parameter_modifier(specified, source),
            Place::Member => self.aligned_modifier(specified, source),
            Place::Nameless => self.qualifier_word(specified, source),
        }
    }
}
