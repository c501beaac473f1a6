ghost use Rattle.std.specs.Prelude.{◌≡◌, ◌≢◌, true, false};
ghost use Rattle.sr_syntax.specs.Sorts as spec;

use sr_num::Num;
use sr_text::Str;

/// What a token is to the grammar.
#[derive(Clone, Copy, Debug, PartialEq, Eq)]
pub enum Sort {
    /// The end of the text, which is no token.
    End,
    /// A name that is not reserved.
    Identifier,
    /// A number literal.
    Number,
    /// A string literal.
    Text,
    /// A template with no expression in it.
    TemplateWhole,
    /// The first piece of a template.
    TemplateHead,
    /// A piece between two expressions of a template.
    TemplateMiddle,
    /// The last piece of a template.
    TemplateTail,
    /// `break`
    Break,
    /// `case`
    Case,
    /// `catch`
    Catch,
    /// `const`
    Const,
    /// `continue`
    Continue,
    /// `debugger`
    Debugger,
    /// `default`
    Default,
    /// `delete`
    Delete,
    /// `do`
    Do,
    /// `else`
    Else,
    /// `export`
    Export,
    /// `false`
    False,
    /// `finally`
    Finally,
    /// `for`
    For,
    /// `function`
    Function,
    /// `if`
    If,
    /// `import`
    Import,
    /// `in`
    In,
    /// `instanceof`
    InstanceOf,
    /// `let`
    Let,
    /// `new`
    New,
    /// `null`
    Null,
    /// `return`
    Return,
    /// `switch`
    Switch,
    /// `this`
    This,
    /// `throw`
    Throw,
    /// `true`
    True,
    /// `try`
    Try,
    /// `typeof`
    Typeof,
    /// `var`
    Var,
    /// `void`
    Void,
    /// `while`
    While,
    /// Another reserved name.
    Reserved,
    /// `{`
    LeftBrace,
    /// `}`
    RightBrace,
    /// `(`
    LeftParenthesis,
    /// `)`
    RightParenthesis,
    /// `[`
    LeftBracket,
    /// `]`
    RightBracket,
    /// `.`
    Dot,
    /// `...`
    Ellipsis,
    /// `?.`
    QuestionDot,
    /// `=>`
    Arrow,
    /// `;`
    Semicolon,
    /// `,`
    Comma,
    /// `?`
    Question,
    /// `:`
    Colon,
    /// `**`
    Power,
    /// `*`
    Multiply,
    /// `/`
    Divide,
    /// `%`
    Remainder,
    /// `+`
    Plus,
    /// `-`
    Minus,
    /// `++`
    Increment,
    /// `--`
    Decrement,
    /// `!`
    Not,
    /// `~`
    BitNot,
    /// `<<`
    ShiftLeft,
    /// `>>`
    ShiftRight,
    /// `>>>`
    ShiftRightUnsigned,
    /// `<`
    Less,
    /// `>`
    Greater,
    /// `<=`
    LessOrEqual,
    /// `>=`
    GreaterOrEqual,
    /// `==`
    Equal,
    /// `!=`
    NotEqual,
    /// `===`
    StrictEqual,
    /// `!==`
    StrictNotEqual,
    /// `&`
    BitAnd,
    /// `^`
    BitXor,
    /// `|`
    BitOr,
    /// `&&`
    And,
    /// `||`
    Or,
    /// `??`
    Coalesce,
    /// `=`
    Assign,
    /// `**=`
    AssignPower,
    /// `*=`
    AssignMultiply,
    /// `/=`
    AssignDivide,
    /// `%=`
    AssignRemainder,
    /// `+=`
    AssignAdd,
    /// `-=`
    AssignSubtract,
    /// `<<=`
    AssignShiftLeft,
    /// `>>=`
    AssignShiftRight,
    /// `>>>=`
    AssignShiftRightUnsigned,
    /// `&=`
    AssignBitAnd,
    /// `^=`
    AssignBitXor,
    /// `|=`
    AssignBitOr,
    /// `&&=`
    AssignAnd,
    /// `||=`
    AssignOr,
    /// `??=`
    AssignCoalesce,
    /// Another punctuator.
    Other,
}

/// What a token holds beside its sort.
#[derive(Drop)]
pub enum Content {
    /// Nothing.
    Nothing,
    /// A name, reserved or not.
    Name(Str),
    /// The value of a string literal or of a piece of a template.
    Text(Str),
    /// The value of a number literal.
    Number(Num),
}

/// A token as the grammar sees it. Places are counted in code units.
#[derive(Drop)]
pub struct Lexeme {
    /// What it is.
    pub sort: Sort,
    /// What it holds.
    pub content: Content,
    /// The place of its first code unit.
    pub from: usize,
    /// The place after its last code unit.
    pub to: usize,
    /// Whether a line end stands before it.
    pub line_before: bool,
    /// What stands behind it; for a `(`, what stands behind the parenthesis that closes it.
    pub ahead: Sort,
}

/// Whether two sorts are the same.
pub fn same_sort(a: Sort, b: Sort) -> bool
    ensures value { result ≡ spec.same_sort a b }
    ensures same { result ≡ true → a ≡ b }
    ensures other { result ≡ false → a ≢ b }
{
    a == b
}
