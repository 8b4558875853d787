//! What a part is read from: a place among the kept tokens, in the open scopes.

ghost use Rattle.std.specs.Prelude.{◌≡◌, ◌∷◌, [], length, true, false};
ghost use Rattle.reading.specs.Readers.{is_ahead};
ghost use Rattle.c_reading.specs.Reads.{Reads};
ghost use Rattle.c_reading.specs.Terminals.{TEXT, mark, key};
ghost use Rattle.c_syntax.specs.Scoping.{input_from, terminal_of};
ghost use Rattle.c_syntax.specs.Sets.{a_name, any_name, a_typedef_name, a_constant, a_step};
ghost use Rattle.c_syntax.specs.Sets.{a_unary, a_binary, an_assignment, a_basic_type, a_type};
ghost use Rattle.c_syntax.specs.Sets.{a_suffix, other_unary};
ghost use Rattle.c_syntax.specs.Steps.{expect_among, expect_mark, expect_key, take_where};

use crate::kinds::{
    begins_suffix, begins_type, is_assignment, is_basic_type, is_binary, is_constant,
    is_other_unary, is_step, is_unary,
};
use c_lexer::Kind;
use c_reading::{Cursor, Stop};
use c_scopes::Scopes;

/// A place among the kept tokens, and the scopes that are open there.
#[derive(Drop)]
pub struct Source<'t> {
    pub cursor: Cursor<'t>,
    pub scopes: Scopes,
}

impl<'t> Source<'t> {
    /// How many tokens are left.
    pub fn left(&self) -> usize
        ensures { result ≡ length (input_from self.now).tokens }
    {
        self.cursor.left()
    }

    /// The stop that blames the next token.
    pub fn refusal(&self) -> Stop
        ensures { result ≡ Stop.Offends self.now.cursor.at }
    {
        self.cursor.refusal()
    }

    /// Whether the next token is this mark.
    pub fn is_at_mark(&self, number: u8) -> bool
        ensures { result ≡ is_ahead terminal_of (mark number ∷ []) (input_from self.now) }
    {
        self.cursor.is_at(Kind::Mark(number))
    }

    /// Whether the next token is this keyword.
    pub fn is_at_key(&self, number: u8) -> bool
        ensures { result ≡ is_ahead terminal_of (key number ∷ []) (input_from self.now) }
    {
        self.cursor.is_at(Kind::Key(number))
    }

    /// Whether the next token is a word that is a typedef name.
    pub fn is_at_typedef_name(&self) -> bool
        ensures { result ≡ is_ahead terminal_of a_typedef_name (input_from self.now) }
    {
        if self.cursor.is_at(Kind::Word) {
            self.scopes.is_typedef(self.cursor.spelling())
        } else {
            false
        }
    }

    /// Whether the next token is a word that is no typedef name.
    pub fn is_at_name(&self) -> bool
        ensures { result ≡ is_ahead terminal_of a_name (input_from self.now) }
    {
        if self.cursor.is_at(Kind::Word) {
            !self.scopes.is_typedef(self.cursor.spelling())
        } else {
            false
        }
    }

    /// Whether the next token is a word.
    pub fn is_at_any_name(&self) -> bool
        ensures { result ≡ is_ahead terminal_of any_name (input_from self.now) }
    {
        self.cursor.is_at(Kind::Word)
    }

    /// Whether the next token is a string literal.
    pub fn is_at_text(&self) -> bool
        ensures { result ≡ is_ahead terminal_of (TEXT ∷ []) (input_from self.now) }
    {
        self.cursor.is_at(Kind::Text)
    }

    /// Whether the next token is a constant that is no string literal.
    pub(crate) fn is_at_constant(&self) -> bool
        ensures { result ≡ is_ahead terminal_of a_constant (input_from self.now) }
    {
        match self.cursor.ahead() {
            Some(kind) => is_constant(kind),
            None => false,
        }
    }

    /// Whether the next token is a type specifier of one keyword.
    pub fn is_at_basic_type(&self) -> bool
        ensures { result ≡ is_ahead terminal_of a_basic_type (input_from self.now) }
    {
        match self.cursor.ahead() {
            Some(kind) => is_basic_type(kind),
            None => false,
        }
    }

    /// Whether the next token begins a type name.
    pub fn is_at_type(&self) -> bool
        ensures { result ≡ is_ahead terminal_of a_type (input_from self.now) }
    {
        if self.is_at_typedef_name() {
            return true;
        }
        match self.cursor.ahead() {
            Some(kind) => begins_type(kind),
            None => false,
        }
    }

    /// Whether the next token is `++` or `--`.
    pub(crate) fn is_at_step(&self) -> bool
        ensures { result ≡ is_ahead terminal_of a_step (input_from self.now) }
    {
        match self.cursor.ahead() {
            Some(kind) => is_step(kind),
            None => false,
        }
    }

    /// Whether the next token is a unary operator behind which a cast may stand.
    pub(crate) fn is_at_unary(&self) -> bool
        ensures { result ≡ is_ahead terminal_of a_unary (input_from self.now) }
    {
        match self.cursor.ahead() {
            Some(kind) => is_unary(kind),
            None => false,
        }
    }

    /// Whether the next token is such an operator other than `*`.
    pub(crate) fn is_at_other_unary(&self) -> bool
        ensures { result ≡ is_ahead terminal_of other_unary (input_from self.now) }
    {
        match self.cursor.ahead() {
            Some(kind) => is_other_unary(kind),
            None => false,
        }
    }

    /// Whether the next token is a binary operator.
    pub(crate) fn is_at_binary(&self) -> bool
        ensures { result ≡ is_ahead terminal_of a_binary (input_from self.now) }
    {
        match self.cursor.ahead() {
            Some(kind) => is_binary(kind),
            None => false,
        }
    }

    /// Whether the next token is an assignment operator.
    pub(crate) fn is_at_assignment(&self) -> bool
        ensures { result ≡ is_ahead terminal_of an_assignment (input_from self.now) }
    {
        match self.cursor.ahead() {
            Some(kind) => is_assignment(kind),
            None => false,
        }
    }

    /// Whether the next token begins a suffix.
    pub(crate) fn is_at_suffix(&self) -> bool
        ensures { result ≡ is_ahead terminal_of a_suffix (input_from self.now) }
    {
        match self.cursor.ahead() {
            Some(kind) => begins_suffix(kind),
            None => false,
        }
    }

    /// Takes the next token, if it may stand there.
    pub fn take_if(&mut self, may_stand: bool, room: usize) -> Result<u32, Stop>
        ensures { Reads (take_where may_stand room (input_from self.old)) result
            (input_from self.new) }
    {
        if may_stand {
            self.cursor.take(room)
        } else {
            Err(self.cursor.refusal())
        }
    }

    /// Takes this mark.
    #[tactic(auto, unfolding(reading::specs::Readers::expect))]
    pub fn expect_mark(&mut self, number: u8, room: usize) -> Result<u32, Stop>
        ensures { Reads (expect_mark number room (input_from self.old)) result
            (input_from self.new) }
    {
        let may_stand = self.is_at_mark(number);
        self.take_if(may_stand, room)
    }

    /// Takes this keyword.
    #[tactic(auto, unfolding(reading::specs::Readers::expect))]
    pub fn expect_key(&mut self, number: u8, room: usize) -> Result<u32, Stop>
        ensures { Reads (expect_key number room (input_from self.old)) result
            (input_from self.new) }
    {
        let may_stand = self.is_at_key(number);
        self.take_if(may_stand, room)
    }

    /// Takes a word that is no typedef name.
    #[tactic(auto, unfolding(reading::specs::Readers::expect))]
    pub fn expect_name(&mut self, room: usize) -> Result<u32, Stop>
        ensures { Reads (expect_among a_name room (input_from self.old)) result
            (input_from self.new) }
    {
        let may_stand = self.is_at_name();
        self.take_if(may_stand, room)
    }

    /// Takes a word.
    #[tactic(auto, unfolding(reading::specs::Readers::expect))]
    pub fn expect_any_name(&mut self, room: usize) -> Result<u32, Stop>
        ensures { Reads (expect_among any_name room (input_from self.old)) result
            (input_from self.new) }
    {
        let may_stand = self.is_at_any_name();
        self.take_if(may_stand, room)
    }

    /// Takes a typedef name.
    #[tactic(auto, unfolding(reading::specs::Readers::expect))]
    pub fn expect_typedef_name(&mut self, room: usize) -> Result<u32, Stop>
        ensures { Reads (expect_among a_typedef_name room (input_from self.old)) result
            (input_from self.new) }
    {
        let may_stand = self.is_at_typedef_name();
        self.take_if(may_stand, room)
    }

    /// Takes a type specifier of one keyword.
    #[tactic(auto, unfolding(reading::specs::Readers::expect))]
    pub fn expect_basic_type(&mut self, room: usize) -> Result<u32, Stop>
        ensures { Reads (expect_among a_basic_type room (input_from self.old)) result
            (input_from self.new) }
    {
        let may_stand = self.is_at_basic_type();
        self.take_if(may_stand, room)
    }

    /// Takes a string literal.
    #[tactic(auto, unfolding(reading::specs::Readers::expect))]
    pub fn expect_text(&mut self, room: usize) -> Result<u32, Stop>
        ensures { Reads (expect_among (TEXT ∷ []) room (input_from self.old)) result
            (input_from self.new) }
    {
        let may_stand = self.is_at_text();
        self.take_if(may_stand, room)
    }

    /// Takes another constant.
    #[tactic(auto, unfolding(reading::specs::Readers::expect))]
    pub(crate) fn expect_constant(&mut self, room: usize) -> Result<u32, Stop>
        ensures { Reads (expect_among a_constant room (input_from self.old)) result
            (input_from self.new) }
    {
        let may_stand = self.is_at_constant();
        self.take_if(may_stand, room)
    }

    /// Takes `++` or `--`.
    #[tactic(auto, unfolding(reading::specs::Readers::expect))]
    pub(crate) fn expect_step(&mut self, room: usize) -> Result<u32, Stop>
        ensures { Reads (expect_among a_step room (input_from self.old)) result
            (input_from self.new) }
    {
        let may_stand = self.is_at_step();
        self.take_if(may_stand, room)
    }

    /// Takes a unary operator behind which a cast may stand.
    #[tactic(auto, unfolding(reading::specs::Readers::expect))]
    pub(crate) fn expect_unary(&mut self, room: usize) -> Result<u32, Stop>
        ensures { Reads (expect_among a_unary room (input_from self.old)) result
            (input_from self.new) }
    {
        let may_stand = self.is_at_unary();
        self.take_if(may_stand, room)
    }

    /// Takes such an operator other than `*`.
    #[tactic(auto, unfolding(reading::specs::Readers::expect))]
    pub(crate) fn expect_other_unary(&mut self, room: usize) -> Result<u32, Stop>
        ensures { Reads (expect_among other_unary room (input_from self.old)) result
            (input_from self.new) }
    {
        let may_stand = self.is_at_other_unary();
        self.take_if(may_stand, room)
    }

    /// Takes a binary operator.
    #[tactic(auto, unfolding(reading::specs::Readers::expect))]
    pub(crate) fn expect_binary(&mut self, room: usize) -> Result<u32, Stop>
        ensures { Reads (expect_among a_binary room (input_from self.old)) result
            (input_from self.new) }
    {
        let may_stand = self.is_at_binary();
        self.take_if(may_stand, room)
    }

    /// Takes an assignment operator.
    #[tactic(auto, unfolding(reading::specs::Readers::expect))]
    pub(crate) fn expect_assignment(&mut self, room: usize) -> Result<u32, Stop>
        ensures { Reads (expect_among an_assignment room (input_from self.old)) result
            (input_from self.new) }
    {
        let may_stand = self.is_at_assignment();
        self.take_if(may_stand, room)
    }
}
