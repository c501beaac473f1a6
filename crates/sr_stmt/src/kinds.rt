ghost use Rattle.std.specs.Prelude.{◌≡◌, IfOk};
ghost use Rattle.sr_ast.specs.declared.tree.Node.{out-Node};
ghost use Rattle.sr_state.specs.Ends.{Comes};
ghost use Rattle.sr_state.specs.Step.{StepsWith};
ghost use Rattle.sr_stmt.specs.Rows as rows;
ghost use Rattle.sr_stmt.specs.Rows.{operation};
ghost use Rattle.sr_stmt.specs.Stages.{StepsOn, statement_at};

use crate::lists::block;
use crate::loops::{Looping, turn, while_loop};
use crate::simple::{choice, empty, expression, throw};
use crate::variables::variables;
use sr_ast::{Node, Tree};
use sr_state::{Next, Over, State};
use std::alloc::AllocError;

/// A statement, by its kind (ECMA-262 14). A tree that is no statement that is built counts as the empty statement.
fn statement(state: &mut State, tree: &Tree) -> Result<Next, Over>
    ensures { Comes result (λ next. StepsOn (statement_at tree.now) state.old next state.new) }
{
    let at = tree.from;
    match &tree.node {
        Node::Expression(part) | Node::Directive(part) => expression(state, at, part),
        Node::Var(declarations) => variables(state, at, declarations),
        Node::Block(statements) => block(state, at, statements),
        Node::If(test, yes, no) => choice(state, at, test, yes, no.as_ref()),
        Node::Do(body, test) => while_loop(state, at, true, test, body),
        Node::While(test, body) => while_loop(state, at, false, test, body),
        Node::For(first, test, update, body) => {
            let looping = Looping {
                at,
                body_first: false,
                first: first.as_ref(),
                test: test.as_ref(),
                update: update.as_ref(),
                body,
            };
            turn(state, looping)
        }
        Node::Throw(part) => throw(state, at, part),
        Node::Empty | Node::Debugger => empty(state, at),
        _ => empty(state, at),
    }
}

/// A step of the frame on top, which carries out this statement.
pub fn step(state: &mut State, tree: &Tree) -> Result<Next, AllocError>
    ensures { IfOk result (λ next. StepsWith operation (statement_at tree.now) state.old next state.new) }
{
    match statement(state, tree) {
        Ok(next) | Err(Over::Next(next)) => Ok(next),
        Err(Over::Memory) => Err(AllocError),
    }
}

/// Whether a tree is a statement that is built.
pub fn is_statement(node: &Node) -> bool
    ensures { result ≡ rows.is_statement (out-Node node.now) }
{
    match node {
        Node::Expression(_)
        | Node::Directive(_)
        | Node::Var(_)
        | Node::Block(_)
        | Node::Empty
        | Node::If(_, _, _)
        | Node::Do(_, _)
        | Node::While(_, _)
        | Node::For(_, _, _, _)
        | Node::Throw(_)
        | Node::Debugger => true,
        _ => false,
    }
}
