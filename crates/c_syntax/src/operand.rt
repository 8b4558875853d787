//! Operands, and what stands before them (C11 6.5.1 to 6.5.4).

ghost use Rattle.std.specs.Prelude.{◌≡◌, ◌-◌};
ghost use Rattle.c_reading.specs.Reads.{Reads};
ghost use Rattle.c_syntax.specs.ExpressionReaders as spec;
ghost use Rattle.c_syntax.specs.Gives.{Gives};
ghost use Rattle.c_syntax.specs.Scoping.{input_from};

use crate::forms::{Chain, Found, Items, Mode};
use crate::grammar::{Grammar, Inner};
use crate::source::Source;
use c_lexer::keyword::{KEY_ALIGNOF, KEY_SIZEOF};
use c_lexer::mark::{
    MARK_COMMA, MARK_LEFT_BRACE, MARK_LEFT_PAREN, MARK_RIGHT_BRACE, MARK_RIGHT_PAREN,
};
use c_reading::Stop;
use c_tree::{Assign, Base, BaseForm, Prefix, Prefixed, TypeName, list_of_one, two_marks};
use joern_io::{Boxed, List};
use reading::Turn;
use std::alloc::Global;

/// One more string literal.
#[tactic(auto, unfolding(crate::specs::ExpressionReaders::one_more_text))]
fn one_more_text(room: usize, texts: List<u32>, source: &mut Source<'_>) -> Result<List<u32>, Stop>
    ensures { Reads (spec.one_more_text room texts (input_from source.old)) result
        (input_from source.new) }
{
    let mut texts = texts;
    texts.push(source.expect_text(room)?)?;
    Ok(texts)
}

/// Further string literals, which are one with the first (6.4.5).
fn more_texts(room: usize, texts: List<u32>, source: &mut Source<'_>) -> Result<List<u32>, Stop>
    ensures { Reads (spec.more_texts room texts (input_from source.old)) result
        (input_from source.new) }
{
    let mut texts = texts;
    for _turn in 0..source.left() {
        if !source.is_at_text() {
            return Ok(texts);
        }
        texts = one_more_text(room, texts, source)?;
    }
    Ok(texts)
}

impl<N: Inner> Grammar<N> {
    #[tactic(auto, unfolding(crate::specs::ExpressionReaders::last_item))]
    pub(crate) fn last_item(
        &self,
        items: Items,
        source: &mut Source<'_>,
    ) -> Result<Turn<Items, Items>, Stop>
        requires { N.can_read self.now.inner self.now.room }
        ensures { Gives (λ room inner. spec.last_item room inner items)
            self.now.room (N.readers self.now.inner) source.old result source.new }
    {
        let Items { items, mut marks } = items;
        marks.push(source.expect_mark(MARK_RIGHT_BRACE, self.deeper())?)?;
        Ok(Turn::Done(Items { items, marks }))
    }

    #[tactic(auto, unfolding(crate::specs::ExpressionReaders::next_item))]
    pub(crate) fn next_item(
        &self,
        items: Items,
        comma: u32,
        source: &mut Source<'_>,
    ) -> Result<Turn<Items, Items>, Stop>
        requires { N.can_read self.now.inner self.now.room }
        ensures { Gives (λ room inner. spec.next_item room inner items comma)
            self.now.room (N.readers self.now.inner) source.old result source.new }
    {
        let Items {
            mut items,
            mut marks,
        } = items;
        let item = self.inner_item(source)?;
        items.push(item)?;
        marks.push(comma)?;
        Ok(Turn::Again(Items { items, marks }))
    }

    #[tactic(auto, unfolding(crate::specs::ExpressionReaders::comma_item))]
    pub(crate) fn comma_item(
        &self,
        items: Items,
        source: &mut Source<'_>,
    ) -> Result<Turn<Items, Items>, Stop>
        requires { N.can_read self.now.inner self.now.room }
        ensures { Gives (λ room inner. spec.comma_item room inner items)
            self.now.room (N.readers self.now.inner) source.old result source.new }
    {
        let comma = source.expect_mark(MARK_COMMA, self.deeper())?;
        if source.is_at_mark(MARK_RIGHT_BRACE) {
            let Items { items, mut marks } = items;
            marks.push(comma)?;
            self.last_item(Items { items, marks }, source)
        } else {
            self.next_item(items, comma, source)
        }
    }

    #[tactic(auto, unfolding(crate::specs::ExpressionReaders::item))]
    pub(crate) fn item(
        &self,
        items: Items,
        source: &mut Source<'_>,
    ) -> Result<Turn<Items, Items>, Stop>
        requires { N.can_read self.now.inner self.now.room }
        ensures { Gives (λ room inner. spec.item room inner items)
            self.now.room (N.readers self.now.inner) source.old result source.new }
    {
        if source.is_at_mark(MARK_COMMA) {
            self.comma_item(items, source)
        } else {
            self.last_item(items, source)
        }
    }

    /// The items of a list after the first, and `}`.
    pub(crate) fn all_items(&self, items: Items, source: &mut Source<'_>) -> Result<Items, Stop>
        requires { N.can_read self.now.inner self.now.room }
        ensures { Gives (λ room inner. spec.all_items room inner items)
            self.now.room (N.readers self.now.inner) source.old result source.new }
    {
        let mut items = items;
        for _turn in 0..source.left() {
            match self.item(items, source)? {
                Turn::Again(more) => items = more,
                Turn::Done(all) => return Ok(all),
            }
        }
        Err(source.refusal())
    }

    /// 6.5.2.5, after the type name.
    #[tactic(auto, unfolding(crate::specs::ExpressionReaders::compound))]
    pub(crate) fn compound(
        &self,
        named: TypeName,
        marks: List<u32>,
        source: &mut Source<'_>,
    ) -> Result<BaseForm, Stop>
        requires { N.can_read self.now.inner self.now.room }
        ensures { Gives (λ room inner. spec.compound room inner named marks)
            self.now.room (N.readers self.now.inner) source.old result source.new }
    {
        let mut marks = marks;
        marks.push(source.expect_mark(MARK_LEFT_BRACE, self.deeper())?)?;
        let first = self.inner_item(source)?;
        let items = list_of_one(self.alloc, first)?;
        let Items { items, marks } = self.all_items(Items { items, marks }, source)?;
        let named = Boxed::new(self.alloc, named)?;
        Ok(BaseForm::Compound(named, items, marks))
    }

    #[tactic(auto, unfolding(crate::specs::ExpressionReaders::with_compound))]
    pub(crate) fn with_compound(
        &self,
        prefixes: List<Prefix>,
        named: TypeName,
        marks: List<u32>,
        source: &mut Source<'_>,
    ) -> Result<Turn<Chain, Found>, Stop>
        requires { N.can_read self.now.inner self.now.room }
        ensures { Gives (λ room inner. spec.with_compound room inner prefixes named marks)
            self.now.room (N.readers self.now.inner) source.old result source.new }
    {
        let base = self.compound(named, marks, source)?;
        Ok(Turn::Done(Found::Operand(prefixes, base)))
    }

    /// After `(` where a type name begins.
    #[tactic(auto, unfolding(crate::specs::ExpressionReaders::typed))]
    pub(crate) fn typed(
        &self,
        chain: Chain,
        left: u32,
        source: &mut Source<'_>,
    ) -> Result<Turn<Chain, Found>, Stop>
        requires { N.can_read self.now.inner self.now.room }
        ensures { Gives (λ room inner. spec.typed room inner chain left)
            self.now.room (N.readers self.now.inner) source.old result source.new }
    {
        let named = self.inner_type_name(source)?;
        let right = source.expect_mark(MARK_RIGHT_PAREN, self.deeper())?;
        let marks = two_marks(self.alloc, left, right)?;
        let Chain { mut prefixes, mode } = chain;
        match mode {
            Mode::Cast => {
                if source.is_at_mark(MARK_LEFT_BRACE) {
                    return self.with_compound(prefixes, named, marks, source);
                }
                let named = Boxed::new(self.alloc, named)?;
                prefixes.push(Prefix::Cast(named, marks))?;
                Ok(Turn::Again(Chain {
                    prefixes,
                    mode: Mode::Cast,
                }))
            }
            Mode::Literal => self.with_compound(prefixes, named, marks, source),
            Mode::Size(key) => {
                if source.is_at_mark(MARK_LEFT_BRACE) {
                    let prefixes = mode.flush(prefixes)?;
                    return self.with_compound(prefixes, named, marks, source);
                }
                let named = Boxed::new(self.alloc, named)?;
                let base = BaseForm::SizeType(key, named, marks);
                Ok(Turn::Done(Found::Sized(prefixes, base)))
            }
        }
    }

    #[tactic(auto, unfolding(crate::specs::ExpressionReaders::grouped))]
    pub(crate) fn grouped(
        &self,
        chain: Chain,
        left: u32,
        source: &mut Source<'_>,
    ) -> Result<Turn<Chain, Found>, Stop>
        requires { N.can_read self.now.inner self.now.room }
        ensures { Gives (λ room inner. spec.grouped room inner chain left)
            self.now.room (N.readers self.now.inner) source.old result source.new }
    {
        let expr = self.inner_expr(source)?;
        let right = source.expect_mark(MARK_RIGHT_PAREN, self.deeper())?;
        let marks = two_marks(self.alloc, left, right)?;
        let expr = Boxed::new(self.alloc, expr)?;
        let base = BaseForm::Group(expr, marks);
        let prefixes = chain.mode.flush(chain.prefixes)?;
        Ok(Turn::Done(Found::Operand(prefixes, base)))
    }

    #[tactic(auto, unfolding(crate::specs::ExpressionReaders::paren))]
    pub(crate) fn paren(
        &self,
        chain: Chain,
        source: &mut Source<'_>,
    ) -> Result<Turn<Chain, Found>, Stop>
        requires { N.can_read self.now.inner self.now.room }
        ensures { Gives (λ room inner. spec.paren room inner chain)
            self.now.room (N.readers self.now.inner) source.old result source.new }
    {
        let left = source.expect_mark(MARK_LEFT_PAREN, self.deeper())?;
        if source.is_at_type() {
            self.typed(chain, left, source)
        } else {
            self.grouped(chain, left, source)
        }
    }

    #[tactic(auto, unfolding(crate::specs::ExpressionReaders::aligned))]
    pub(crate) fn aligned(
        &self,
        chain: Chain,
        source: &mut Source<'_>,
    ) -> Result<Turn<Chain, Found>, Stop>
        requires { N.can_read self.now.inner self.now.room }
        ensures { Gives (λ room inner. spec.aligned room inner chain)
            self.now.room (N.readers self.now.inner) source.old result source.new }
    {
        let key = source.expect_key(KEY_ALIGNOF, self.room)?;
        let left = source.expect_mark(MARK_LEFT_PAREN, self.deeper())?;
        let named = self.inner_type_name(source)?;
        let right = source.expect_mark(MARK_RIGHT_PAREN, self.deeper())?;
        let marks = two_marks(self.alloc, left, right)?;
        let named = Boxed::new(self.alloc, named)?;
        let base = BaseForm::SizeType(key, named, marks);
        let prefixes = chain.mode.flush(chain.prefixes)?;
        Ok(Turn::Done(Found::Sized(prefixes, base)))
    }

    #[tactic(auto, unfolding(crate::specs::ExpressionReaders::operator))]
    pub(crate) fn operator(
        &self,
        chain: Chain,
        source: &mut Source<'_>,
    ) -> Result<Turn<Chain, Found>, Stop>
        requires { N.can_read self.now.inner self.now.room }
        ensures { Gives (λ room inner. spec.operator room inner chain)
            self.now.room (N.readers self.now.inner) source.old result source.new }
    {
        let op = source.expect_unary(self.room)?;
        let mut prefixes = chain.mode.flush(chain.prefixes)?;
        prefixes.push(Prefix::Op(op))?;
        Ok(Turn::Again(Chain {
            prefixes,
            mode: Mode::Cast,
        }))
    }

    #[tactic(auto, unfolding(crate::specs::ExpressionReaders::stepped))]
    pub(crate) fn stepped(
        &self,
        chain: Chain,
        source: &mut Source<'_>,
    ) -> Result<Turn<Chain, Found>, Stop>
        requires { N.can_read self.now.inner self.now.room }
        ensures { Gives (λ room inner. spec.stepped room inner chain)
            self.now.room (N.readers self.now.inner) source.old result source.new }
    {
        let op = source.expect_step(self.room)?;
        let mut prefixes = chain.mode.flush(chain.prefixes)?;
        prefixes.push(Prefix::Op(op))?;
        Ok(Turn::Again(Chain {
            prefixes,
            mode: Mode::Literal,
        }))
    }

    #[tactic(auto, unfolding(crate::specs::ExpressionReaders::sized))]
    pub(crate) fn sized(
        &self,
        chain: Chain,
        source: &mut Source<'_>,
    ) -> Result<Turn<Chain, Found>, Stop>
        requires { N.can_read self.now.inner self.now.room }
        ensures { Gives (λ room inner. spec.sized room inner chain)
            self.now.room (N.readers self.now.inner) source.old result source.new }
    {
        let key = source.expect_key(KEY_SIZEOF, self.room)?;
        let prefixes = chain.mode.flush(chain.prefixes)?;
        Ok(Turn::Again(Chain {
            prefixes,
            mode: Mode::Size(key),
        }))
    }

    #[tactic(auto, unfolding(crate::specs::ExpressionReaders::name))]
    pub(crate) fn name(
        &self,
        chain: Chain,
        source: &mut Source<'_>,
    ) -> Result<Turn<Chain, Found>, Stop>
        requires { N.can_read self.now.inner self.now.room }
        ensures { Gives (λ room inner. spec.name room inner chain)
            self.now.room (N.readers self.now.inner) source.old result source.new }
    {
        let token = source.expect_name(self.room)?;
        let form = BaseForm::Name(token);
        let prefixes = chain.mode.flush(chain.prefixes)?;
        Ok(Turn::Done(Found::Operand(prefixes, form)))
    }

    #[tactic(auto, unfolding(crate::specs::ExpressionReaders::constant))]
    pub(crate) fn constant(
        &self,
        chain: Chain,
        source: &mut Source<'_>,
    ) -> Result<Turn<Chain, Found>, Stop>
        requires { N.can_read self.now.inner self.now.room }
        ensures { Gives (λ room inner. spec.constant room inner chain)
            self.now.room (N.readers self.now.inner) source.old result source.new }
    {
        let token = source.expect_constant(self.room)?;
        let form = BaseForm::Literal(list_of_one(self.alloc, token)?);
        let prefixes = chain.mode.flush(chain.prefixes)?;
        Ok(Turn::Done(Found::Operand(prefixes, form)))
    }

    #[tactic(auto, unfolding(crate::specs::ExpressionReaders::text))]
    pub(crate) fn text(
        &self,
        chain: Chain,
        source: &mut Source<'_>,
    ) -> Result<Turn<Chain, Found>, Stop>
        requires { N.can_read self.now.inner self.now.room }
        ensures { Gives (λ room inner. spec.text room inner chain)
            self.now.room (N.readers self.now.inner) source.old result source.new }
    {
        let token = source.expect_text(self.room)?;
        let tokens = more_texts(self.room, list_of_one(self.alloc, token)?, source)?;
        let form = BaseForm::Literal(tokens);
        let prefixes = chain.mode.flush(chain.prefixes)?;
        Ok(Turn::Done(Found::Operand(prefixes, form)))
    }

    /// A prefix, or an operand without its suffixes.
    #[tactic(auto, unfolding(crate::specs::ExpressionReaders::link))]
    pub(crate) fn link(
        &self,
        chain: Chain,
        source: &mut Source<'_>,
    ) -> Result<Turn<Chain, Found>, Stop>
        requires { N.can_read self.now.inner self.now.room }
        ensures { Gives (λ room inner. spec.link room inner chain)
            self.now.room (N.readers self.now.inner) source.old result source.new }
    {
        if source.is_at_unary() {
            self.operator(chain, source)
        } else if source.is_at_step() {
            self.stepped(chain, source)
        } else if source.is_at_key(KEY_SIZEOF) {
            self.sized(chain, source)
        } else if source.is_at_key(KEY_ALIGNOF) {
            self.aligned(chain, source)
        } else if source.is_at_mark(MARK_LEFT_PAREN) {
            self.paren(chain, source)
        } else if source.is_at_name() {
            self.name(chain, source)
        } else if source.is_at_constant() {
            self.constant(chain, source)
        } else {
            self.text(chain, source)
        }
    }

    /// Links of an operand up to the last one.
    pub(crate) fn links(&self, chain: Chain, source: &mut Source<'_>) -> Result<Found, Stop>
        requires { N.can_read self.now.inner self.now.room }
        ensures { Gives (λ room inner. spec.links room inner chain)
            self.now.room (N.readers self.now.inner) source.old result source.new }
    {
        let mut chain = chain;
        for _turn in 0..source.left() {
            match self.link(chain, source)? {
                Turn::Again(more) => chain = more,
                Turn::Done(found) => return Ok(found),
            }
        }
        Err(source.refusal())
    }

    /// An operand with its suffixes.
    pub(crate) fn finished(&self, found: Found, source: &mut Source<'_>) -> Result<Prefixed, Stop>
        requires { N.can_read self.now.inner self.now.room }
        ensures { Gives (λ room inner. spec.finished room inner found)
            self.now.room (N.readers self.now.inner) source.old result source.new }
    {
        match found {
            Found::Operand(prefixes, form) => {
                let suffixes = self.all_suffixes(source)?;
                Ok(Prefixed {
                    prefixes,
                    base: Base { form, suffixes },
                })
            }
            Found::Sized(prefixes, form) => Ok(Prefixed {
                prefixes,
                base: Base {
                    form,
                    suffixes: List::new(self.alloc),
                },
            }),
        }
    }

    /// 6.5.3 and 6.5.4.
    #[tactic(auto, unfolding(crate::specs::ExpressionReaders::prefixed))]
    pub(crate) fn prefixed(&self, source: &mut Source<'_>) -> Result<Prefixed, Stop>
        requires { N.can_read self.now.inner self.now.room }
        ensures { Gives spec.prefixed
            self.now.room (N.readers self.now.inner) source.old result source.new }
    {
        let start = Chain {
            prefixes: List::new(self.alloc),
            mode: Mode::Cast,
        };
        let found = self.links(start, source)?;
        self.finished(found, source)
    }
}
