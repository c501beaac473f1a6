ghost use Rattle.std.specs.Prelude.{◌≡◌, ◌+◌, IfOk, []};
ghost use Rattle.std.specs.Str.{bytes_eq};
ghost use Rattle.sr_syntax.specs.Input as spec;
ghost use Rattle.sr_syntax.specs.Input.{Reads};

use crate::refusal::Refusal;
use crate::sorts::{Content, Lexeme, Sort, same_sort};
use sr_num::Num;
use sr_text::{Str, TextRefusal, spells};
use std::alloc::{AllocError, Global};
use std::marker::Model;

/// Whether a token is a name, reserved or not (12.7).
pub fn is_word(sort: Sort) -> bool
    ensures { result ≡ spec.is_word sort }
{
    match sort {
        Sort::Identifier => true,
        Sort::Break => true,
        Sort::Case => true,
        Sort::Catch => true,
        Sort::Const => true,
        Sort::Continue => true,
        Sort::Debugger => true,
        Sort::Default => true,
        Sort::Delete => true,
        Sort::Do => true,
        Sort::Else => true,
        Sort::Export => true,
        Sort::False => true,
        Sort::Finally => true,
        Sort::For => true,
        Sort::Function => true,
        Sort::If => true,
        Sort::Import => true,
        Sort::In => true,
        Sort::InstanceOf => true,
        Sort::Let => true,
        Sort::New => true,
        Sort::Null => true,
        Sort::Return => true,
        Sort::Switch => true,
        Sort::This => true,
        Sort::Throw => true,
        Sort::True => true,
        Sort::Try => true,
        Sort::Typeof => true,
        Sort::Var => true,
        Sort::Void => true,
        Sort::While => true,
        Sort::Reserved => true,
        _ => false,
    }
}

/// The tokens of a text, from one of them on.
#[derive(Drop)]
pub struct Tokens<'a> {
    rest: &'a [Lexeme],
    last: usize,
    size: usize,
}

impl<'a> Model for Tokens<'a> {
    ghost use Rattle.sr_syntax.specs.Input.{Input};
    ghost use Rattle.sr_syntax.specs.Cursor.{input_of};

    ghost Value = { Input };

    ghost view = { input_of };
}

/// The string with no code units.
fn no_text(alloc: Global) -> Result<Str, AllocError>
    ensures { IfOk result (λ s. s ≡ []) }
{
    match Str::of_units(alloc, &[]) {
        Ok(text) => Ok(text),
        Err(TextRefusal::Memory) => Err(AllocError),
        Err(TextRefusal::TooLong) => unreachable!(),
        Err(TextRefusal::NotUtf8(_)) => unreachable!(),
    }
}

/// The text of what a token holds.
fn text_of(alloc: Global, content: &Content) -> Result<Str, AllocError>
    ensures { IfOk result (λ s. s ≡ spec.text_of content.now) }
{
    match content {
        Content::Name(text) | Content::Text(text) => text.clone(),
        Content::Number(_) | Content::Nothing => no_text(alloc),
    }
}

/// The number of what a token holds.
fn number_of(content: &Content) -> Num
    ensures { result ≡ spec.number_of content.now }
{
    match content {
        Content::Number(value) => *value,
        Content::Name(_) | Content::Text(_) | Content::Nothing => Num::nan(),
    }
}

impl<'a> Tokens<'a> {
    /// All tokens of a text of this length.
    pub fn new(rest: &'a [Lexeme], size: usize) -> Tokens<'a>
        ensures { result ≡ spec.start rest.now size }
    {
        Tokens {
            rest,
            last: 0,
            size,
        }
    }

    /// What the next token is.
    #[tactic(auto, unfolding(crate::specs::Input::sort))]
    pub fn peek(&self) -> Sort
        ensures { result ≡ spec.sort self.now }
    {
        match self.rest {
            [] => Sort::End,
            [token, ..] => token.sort,
        }
    }

    /// Where the next token begins.
    #[tactic(auto, unfolding(crate::specs::Input::place))]
    pub fn place(&self) -> usize
        ensures { result ≡ spec.place self.now }
    {
        match self.rest {
            [] => self.size,
            [token, ..] => token.from,
        }
    }

    /// Where the last token ended.
    pub fn last(&self) -> usize
        ensures { result ≡ self.now.last }
    {
        self.last
    }

    /// Whether a line end stands before the next token, or the text ends.
    #[tactic(auto, unfolding(crate::specs::Input::line_before))]
    pub fn line_before(&self) -> bool
        ensures { result ≡ spec.line_before self.now }
    {
        match self.rest {
            [] => true,
            [token, ..] => token.line_before,
        }
    }

    /// How many tokens are left.
    #[tactic(auto, unfolding(crate::specs::Input::left))]
    pub fn left(&self) -> usize
        ensures { result ≡ spec.left self.now }
    {
        self.rest.len()
    }

    /// The turns of a loop that takes a token in each of them and fails in the last.
    #[tactic(auto, unfolding(crate::specs::Input::left))]
    pub fn turns(&self) -> usize
        ensures { result ≡ spec.left self.now + 1 }
    {
        self.rest.len() + 1
    }

    /// That the next token cannot continue.
    pub fn refuse(&self) -> Refusal
        ensures { result ≡ Refusal.Syntax (spec.place self.now) }
    {
        Refusal::Syntax(self.place())
    }

    /// Goes behind the next token.
    #[tactic(auto, unfolding(crate::specs::Input::next))]
    pub fn take(&mut self)
        ensures { self.new ≡ spec.next self.old }
    {
        if let [token, rest @ ..] = self.rest {
            self.last = token.to;
            self.rest = rest;
        }
    }

    /// Takes the next token for the text that it holds.
    #[tactic(auto, unfolding(crate::specs::Input::text))]
    pub fn take_text(&mut self, alloc: Global) -> Result<Str, Refusal>
        ensures { Reads (spec.take_text self.old) result self.new }
    {
        let text = match self.rest {
            [] => no_text(alloc)?,
            [token, ..] => text_of(alloc, &token.content)?,
        };
        self.take();
        Ok(text)
    }

    /// Takes the next token for the number that it holds.
    #[tactic(auto, unfolding(crate::specs::Input::number))]
    pub fn take_number(&mut self) -> Num
        ensures value { result ≡ spec.number self.old }
        ensures after { self.new ≡ spec.next self.old }
    {
        let value = match self.rest {
            [] => Num::nan(),
            [token, ..] => number_of(&token.content),
        };
        self.take();
        value
    }

    /// Whether this token comes next.
    #[tactic(auto, unfolding(crate::specs::Input::sees))]
    pub fn sees(&self, sort: Sort) -> bool
        ensures { result ≡ spec.sees sort self.now }
    {
        same_sort(self.peek(), sort)
    }

    /// Whether the next token is a name, reserved or not.
    #[tactic(auto, unfolding(crate::specs::Input::sees_word))]
    pub fn sees_word(&self) -> bool
        ensures { result ≡ spec.sees_word self.now }
    {
        is_word(self.peek())
    }

    /// Whether the next token holds this text.
    fn is(&self, word: &[u8]) -> bool
        ensures { result ≡ bytes_eq (spec.text_of (spec.content_at self.now.rest)) word.now }
    {
        match self.rest {
            [] => spells(&[], word),
            [token, ..] => match &token.content {
                Content::Name(text) | Content::Text(text) => spells(text.units(), word),
                Content::Number(_) | Content::Nothing => spells(&[], word),
            },
        }
    }

    /// What stands behind the next token; for a `(`, what stands behind the parenthesis that closes it.
    #[tactic(auto, unfolding(crate::specs::Input::ahead))]
    pub fn ahead(&self) -> Sort
        ensures { result ≡ spec.ahead self.now }
    {
        match self.rest {
            [] => Sort::End,
            [token, ..] => token.ahead,
        }
    }

    /// Whether the next token is this name, which is not reserved.
    #[tactic(auto, unfolding(crate::specs::Input::sees_text, crate::specs::Input::sort))]
    pub fn sees_text(&self, word: &[u8]) -> bool
        ensures { result ≡ spec.sees_text word.now self.now }
    {
        same_sort(self.peek(), Sort::Identifier) && self.is(word)
    }

    /// Takes this token if it comes next, and answers whether it did.
    #[tactic(auto, unfolding(crate::specs::Input::after))]
    pub fn eat(&mut self, sort: Sort) -> bool
        ensures found { result ≡ spec.sees sort self.old }
        ensures after { self.new ≡ spec.after sort self.old }
    {
        let found = self.sees(sort);
        if found {
            self.take();
        }
        found
    }

    /// Takes this token, which has to come next.
    #[tactic(auto, unfolding(crate::specs::Input::expect))]
    pub fn expect(&mut self, sort: Sort) -> Result<(), Refusal>
        ensures { Reads (spec.expect sort self.old) result self.new }
    {
        if self.sees(sort) {
            self.take();
            Ok(())
        } else {
            Err(self.refuse())
        }
    }

    /// Takes this name, which has to come next.
    #[tactic(auto, unfolding(crate::specs::Input::expect_text))]
    pub fn expect_text(&mut self, word: &[u8]) -> Result<(), Refusal>
        ensures { Reads (spec.expect_text word.now self.old) result self.new }
    {
        if self.sees_text(word) {
            self.take();
            Ok(())
        } else {
            Err(self.refuse())
        }
    }

    /// Takes a semicolon, or inserts it (ECMA-262 12.10).
    #[tactic(auto, unfolding(crate::specs::Input::semicolon))]
    pub fn semicolon(&mut self) -> Result<(), Refusal>
        ensures { Reads (spec.semicolon self.old) result self.new }
    {
        if self.sees(Sort::Semicolon) {
            self.take();
            Ok(())
        } else if self.sees(Sort::RightBrace) || self.line_before() {
            Ok(())
        } else {
            Err(self.refuse())
        }
    }
}
