use crate::binding::{Binding, HeadBinding, LexicalKind, Parameters, PropertyName};
use crate::module::{ExportName, Imports};
use crate::operators::{AssignOp, BinaryOp, Link, LogicalOp, UnaryOp, UpdateOp};
use sqlite_items::Items;
use sr_num::Num;
use sr_shared::Shared;
use sr_text::Str;

/// What a tree is, with its parts in order. Parentheses make no tree.
#[cycle(ast)]
#[derive(Drop)]
pub enum Node {
    /// Expressions joined by commas, at least two (ECMA-262 13.16).
    Sequence(Items<Shared<Tree>>),
    /// An assignment to a target; and whether the target is a name in no parentheses, which a function without a name on
    /// the right takes (13.15).
    Assign(AssignOp, Shared<Tree>, Shared<Tree>, bool),
    /// A condition, the value where it holds, and the value where it does not (13.14).
    Cond(Shared<Tree>, Shared<Tree>, Shared<Tree>),
    /// A logical operator between operands (13.13).
    Logical(LogicalOp, Shared<Tree>, Shared<Tree>),
    /// Another operator between operands (13.6 to 13.12).
    Binary(BinaryOp, Shared<Tree>, Shared<Tree>),
    /// An operator before an operand (13.5).
    Unary(UnaryOp, Shared<Tree>),
    /// `++` or `--` of a target (13.4).
    Update(UpdateOp, Shared<Tree>),
    /// A property by its name (13.3.2, 13.3.9).
    Member(Link, Shared<Tree>, Str),
    /// A property by an expression (13.3.2, 13.3.9).
    Index(Link, Shared<Tree>, Shared<Tree>),
    /// A call: the callee and the arguments (13.3.6, 13.3.9).
    Call(Link, Shared<Tree>, Items<Element>),
    /// `new`: the constructor, and the arguments where they are written (13.3.5).
    New(Shared<Tree>, Option<Items<Element>>),
    /// `this` (13.2.1).
    This,
    /// A name (13.1).
    Name(Str),
    /// `null`
    Null,
    /// `true` or `false`
    Bool(bool),
    /// A number literal (12.9.3).
    Num(Num),
    /// A string literal, by its value (12.9.4).
    Text(Str),
    /// A template: its texts, and the expressions between each two of them (13.2.8).
    Template(Items<Str>, Items<Shared<Tree>>),
    /// An array literal (13.2.4).
    Array(Items<Element>),
    /// An object literal (13.2.5).
    Object(Items<Property>),
    /// A method of an object literal: its name, the parameters, and the items of the body (15.4).
    Method(PropertyName, Parameters, Items<Shared<Tree>>),
    /// A method whose name is an expression (15.4).
    ComputedMethod(Shared<Tree>, Parameters, Items<Shared<Tree>>),
    /// A getter of an object literal (15.4).
    Getter(PropertyName, Items<Shared<Tree>>),
    /// A setter of an object literal (15.4).
    Setter(PropertyName, Binding, Items<Shared<Tree>>),
    /// A function expression: its name, the parameters, and the items of the body (15.2).
    Function(Option<Binding>, Parameters, Items<Shared<Tree>>),
    /// An arrow function with a body (15.3).
    Arrow(Parameters, Items<Shared<Tree>>),
    /// An arrow function that gives the value of an expression (15.3).
    ExpressionArrow(Parameters, Shared<Tree>),
    /// An expression as a statement (14.5).
    Expression(Shared<Tree>),
    /// A string literal in no parentheses as a statement: a directive, where nothing but such statements stand before it in
    /// a script, a module or a function's body (14.5, 11.2.1).
    Directive(Shared<Tree>),
    /// `var` and its declarations, at least one (14.3.2).
    Var(Items<Declaration>),
    /// `let` or `const` and its declarations, at least one (14.3.1).
    Lexical(LexicalKind, Items<Declaration>),
    /// A function declaration; the default export of a module may have no name (15.2).
    FunctionDeclaration(Option<Binding>, Parameters, Items<Shared<Tree>>),
    /// `{ .. }` (14.2).
    Block(Items<Shared<Tree>>),
    /// `;` (14.4).
    Empty,
    /// `if`: the condition, the statement where it holds, and the one where it does not (14.6).
    If(Shared<Tree>, Shared<Tree>, Option<Shared<Tree>>),
    /// `do`: the body and the condition (14.7.2).
    Do(Shared<Tree>, Shared<Tree>),
    /// `while`: the condition and the body (14.7.3).
    While(Shared<Tree>, Shared<Tree>),
    /// `for`: the expression or declaration at first, the condition, the expression after each turn, and the body (14.7.4).
    For(Option<Shared<Tree>>, Option<Shared<Tree>>, Option<Shared<Tree>>, Shared<Tree>),
    /// `for` over the keys of an object, with a declared name: the object and the body (14.7.5).
    ForIn(HeadBinding, Shared<Tree>, Shared<Tree>),
    /// `for` over the keys of an object, with a target: the target, the object and the body (14.7.5).
    ForInTarget(Shared<Tree>, Shared<Tree>, Shared<Tree>),
    /// `for` over what an iterator gives, with a declared name: what is iterated and the body (14.7.5).
    ForOf(HeadBinding, Shared<Tree>, Shared<Tree>),
    /// `for` over what an iterator gives, with a target: the target, what is iterated and the body (14.7.5).
    ForOfTarget(Shared<Tree>, Shared<Tree>, Shared<Tree>),
    /// `continue`, with a label or none (14.8).
    Continue(Option<Str>),
    /// `break`, with a label or none (14.9).
    Break(Option<Str>),
    /// `return`, with a value or none (14.10).
    Return(Option<Shared<Tree>>),
    /// `throw` (14.14).
    Throw(Shared<Tree>),
    /// `debugger` (14.16).
    Debugger,
    /// `switch`: the value and the clauses (14.12).
    Switch(Shared<Tree>, Items<Case>),
    /// `try`: its block, the parameter of `catch`, the block of `catch`, and that of `finally` (14.15).
    Try(Shared<Tree>, Option<Binding>, Option<Shared<Tree>>, Option<Shared<Tree>>),
    /// A statement with a label, which stands at its start (14.13).
    Labelled(Str, Shared<Tree>),
    /// `import`: the name of the default export, the other names, and the module (16.2.2).
    Import(Option<Binding>, Imports, Str),
    /// `export *`, with a name or none, and the module (16.2.3).
    ExportAll(Option<Binding>, Str),
    /// `export { .. }`, and the module where there is one (16.2.3).
    ExportNames(Items<ExportName>, Option<Str>),
    /// `export` of a declaration (16.2.3).
    Export(Shared<Tree>),
    /// `export default` of a function declaration or an expression (16.2.3).
    ExportDefault(Shared<Tree>),
}

/// What stands between the commas of an array literal or of arguments (13.2.4, 13.3.8). It is no tree.
#[cycle(ast)]
#[derive(Drop)]
pub enum Element {
    /// An expression.
    Value(Shared<Tree>),
    /// `...` and an expression.
    Spread(Shared<Tree>),
    /// Nothing, in an array literal alone.
    Hole,
}

/// What stands between the commas of an object literal (13.2.5). It is no tree.
#[cycle(ast)]
#[derive(Drop)]
pub enum Property {
    /// A name and its value; for a name alone, the value is the name.
    Named(PropertyName, Shared<Tree>),
    /// An expression for the name, and the value.
    Computed(Shared<Tree>, Shared<Tree>),
    /// `...` and an expression.
    Spread(Shared<Tree>),
    /// A method, a getter or a setter.
    Method(Shared<Tree>),
}

/// A tree of a text. Places are counted in code units.
#[cycle(ast)]
pub struct Tree {
    /// What it is.
    pub node: Node,
    /// The place of its first token, where parentheses around its first part are dropped.
    pub from: usize,
    /// The place after its last token.
    pub to: usize,
    /// Its number in its unit.
    pub number: u32,
}

// Written by hand, so that the crates above prove nothing of how the kinds of trees are dropped.
impl Drop for Tree {
    #[cycle(drops)]
    fn drop(self) {
        let Tree {
            node,
            from: _,
            to: _,
            number: _,
        } = self;
        drop(node);
    }
}

/// A declared name, and the value that it is given (14.3). It is no tree.
#[cycle(ast)]
#[derive(Drop)]
pub struct Declaration {
    /// The name.
    pub name: Str,
    /// The place of the name.
    pub from: usize,
    /// The value, where there is one.
    pub value: Option<Shared<Tree>>,
}

/// A clause of a `switch` (14.12). It is no tree.
#[cycle(ast)]
#[derive(Drop)]
pub struct Case {
    /// The value that it is for; none for `default`.
    pub test: Option<Shared<Tree>>,
    /// Its items.
    pub body: Items<Shared<Tree>>,
}
