ghost use Rattle.std.specs.Prelude.{◌≡◌, suc, map, IfOk, OnOk, IsTrue};
ghost use Rattle.std.specs.Option.{option_map};
ghost use Rattle.sr_unit.specs.Kinds as kind;
ghost use Rattle.sr_unit.specs.Numbers as spec;
ghost use Rattle.sr_unit.specs.Parts.{element_numbered, property_numbered, case_numbered, declaration_numbered, node_numbered};

use crate::copies;
use sqlite_items::Items;
use sr_ast::{Case, Declaration, Element, Node, Property, Tree};
use sr_shared::Shared;
use std::alloc::{AllocError, Global};

/// The next number, which a tree takes. No unit is so large that there is none.
fn take(next: &mut u64) -> Result<u32, AllocError>
    ensures number { IfOk result (λ number. number ≡ next.old) }
    ensures next { OnOk result (next.new ≡ suc next.old) }
{
    let Ok(number) = u32::try_from(*next) else {
        return Err(AllocError);
    };
    *next = u64::from(number) + 1;
    Ok(number)
}

/// A tree, numbered.
#[cycle(numbers)]
#[tactic(auto, using(crate::proofs::Parts::tree_is))]
fn tree(alloc: Global, next: &mut u64, tree: &Tree) -> Result<Shared<Tree>, AllocError>
    ensures value { IfOk result (λ copy. copy ≡ (spec.numbered tree.now next.old).0) }
    ensures next { OnOk result (next.new ≡ (spec.numbered tree.now next.old).1) }
{
    let number = take(next)?;
    let node = node(alloc, next, &tree.node)?;
    Shared::new(
        alloc,
        Tree {
            node,
            from: tree.from,
            to: tree.to,
            number,
        },
    )
}

/// Trees in order, numbered.
#[cycle(numbers)]
pub fn trees(
    alloc: Global,
    next: &mut u64,
    trees: &[Shared<Tree>],
) -> Result<Items<Shared<Tree>>, AllocError>
    ensures value { IfOk result (λ copies. copies ≡ (spec.numbered_all trees.now next.old).0) }
    ensures next { OnOk result (next.new ≡ (spec.numbered_all trees.now next.old).1) }
{
    let mut copies = Items::new(alloc);
    for one in trees {
        copies.push(tree(alloc, next, one.get())?)?;
    }
    Ok(copies)
}

/// A tree, where there is one, numbered.
#[cycle(numbers)]
fn tree_if_there(
    alloc: Global,
    next: &mut u64,
    part: &Option<Shared<Tree>>,
) -> Result<Option<Shared<Tree>>, AllocError>
    ensures value { IfOk result (λ copy. copy ≡ (spec.if_there (option_map spec.numbered part.now) next.old).0) }
    ensures next { OnOk result (next.new ≡ (spec.if_there (option_map spec.numbered part.now) next.old).1) }
{
    match part {
        None => Ok(None),
        Some(part) => Ok(Some(tree(alloc, next, part.get())?)),
    }
}

/// An element, numbered.
#[cycle(numbers)]
fn element(alloc: Global, next: &mut u64, element: &Element) -> Result<Element, AllocError>
    ensures value { IfOk result (λ copy. copy ≡ (element_numbered element.now next.old).0) }
    ensures next { OnOk result (next.new ≡ (element_numbered element.now next.old).1) }
{
    match element {
        Element::Value(part) => Ok(Element::Value(tree(alloc, next, part.get())?)),
        Element::Spread(part) => Ok(Element::Spread(tree(alloc, next, part.get())?)),
        Element::Hole => Ok(Element::Hole),
    }
}

/// Elements in order, numbered.
#[cycle(numbers)]
fn elements(
    alloc: Global,
    next: &mut u64,
    elements: &[Element],
) -> Result<Items<Element>, AllocError>
    ensures value { IfOk result (λ copies. copies ≡ (spec.each (map element_numbered elements.now) next.old).0) }
    ensures next { OnOk result (next.new ≡ (spec.each (map element_numbered elements.now) next.old).1) }
{
    let mut copies = Items::new(alloc);
    for one in elements {
        copies.push(element(alloc, next, one)?)?;
    }
    Ok(copies)
}

/// A property, numbered.
#[cycle(numbers)]
fn property(alloc: Global, next: &mut u64, property: &Property) -> Result<Property, AllocError>
    ensures value { IfOk result (λ copy. copy ≡ (property_numbered property.now next.old).0) }
    ensures next { OnOk result (next.new ≡ (property_numbered property.now next.old).1) }
{
    match property {
        Property::Named(name, value) => Ok(Property::Named(
            copies::property_name(name)?,
            tree(alloc, next, value.get())?,
        )),
        Property::Computed(name, value) => Ok(Property::Computed(
            tree(alloc, next, name.get())?,
            tree(alloc, next, value.get())?,
        )),
        Property::Spread(part) => Ok(Property::Spread(tree(alloc, next, part.get())?)),
        Property::Method(part) => Ok(Property::Method(tree(alloc, next, part.get())?)),
    }
}

/// Properties in order, numbered.
#[cycle(numbers)]
fn properties(
    alloc: Global,
    next: &mut u64,
    properties: &[Property],
) -> Result<Items<Property>, AllocError>
    ensures value { IfOk result (λ copies. copies ≡ (spec.each (map property_numbered properties.now) next.old).0) }
    ensures next { OnOk result (next.new ≡ (spec.each (map property_numbered properties.now) next.old).1) }
{
    let mut copies = Items::new(alloc);
    for one in properties {
        copies.push(property(alloc, next, one)?)?;
    }
    Ok(copies)
}

/// A clause, numbered.
#[cycle(numbers)]
fn case(alloc: Global, next: &mut u64, case: &Case) -> Result<Case, AllocError>
    ensures value { IfOk result (λ copy. copy ≡ (case_numbered case.now next.old).0) }
    ensures next { OnOk result (next.new ≡ (case_numbered case.now next.old).1) }
{
    let test = tree_if_there(alloc, next, &case.test)?;
    let body = trees(alloc, next, case.body.as_slice())?;
    Ok(Case { test, body })
}

/// Clauses in order, numbered.
#[cycle(numbers)]
fn cases(alloc: Global, next: &mut u64, cases: &[Case]) -> Result<Items<Case>, AllocError>
    ensures value { IfOk result (λ copies. copies ≡ (spec.each (map case_numbered cases.now) next.old).0) }
    ensures next { OnOk result (next.new ≡ (spec.each (map case_numbered cases.now) next.old).1) }
{
    let mut copies = Items::new(alloc);
    for one in cases {
        copies.push(case(alloc, next, one)?)?;
    }
    Ok(copies)
}

/// A declaration, numbered.
#[cycle(numbers)]
fn declaration(
    alloc: Global,
    next: &mut u64,
    declaration: &Declaration,
) -> Result<Declaration, AllocError>
    ensures value { IfOk result (λ copy. copy ≡ (declaration_numbered declaration.now next.old).0) }
    ensures next { OnOk result (next.new ≡ (declaration_numbered declaration.now next.old).1) }
{
    Ok(Declaration {
        name: declaration.name.clone()?,
        from: declaration.from,
        value: tree_if_there(alloc, next, &declaration.value)?,
    })
}

/// Declarations in order, numbered.
#[cycle(numbers)]
fn declarations(
    alloc: Global,
    next: &mut u64,
    declarations: &[Declaration],
) -> Result<Items<Declaration>, AllocError>
    ensures value { IfOk result (λ copies. copies ≡ (spec.each (map declaration_numbered declarations.now) next.old).0) }
    ensures next { OnOk result (next.new ≡ (spec.each (map declaration_numbered declarations.now) next.old).1) }
{
    let mut copies = Items::new(alloc);
    for one in declarations {
        copies.push(declaration(alloc, next, one)?)?;
    }
    Ok(copies)
}

/// A node, numbered.
#[cycle(numbers)]
fn node(alloc: Global, next: &mut u64, node: &Node) -> Result<Node, AllocError>
    ensures value { IfOk result (λ copy. copy ≡ (node_numbered node.now next.old).0) }
    ensures next { OnOk result (next.new ≡ (node_numbered node.now next.old).1) }
{
    match node {
        Node::This
        | Node::Name(_)
        | Node::Null
        | Node::Bool(_)
        | Node::Num(_)
        | Node::Text(_)
        | Node::Template(..)
        | Node::Array(_)
        | Node::Object(_) => literal(alloc, next, node),
        Node::Member(..) | Node::Index(..) | Node::Call(..) | Node::New(..) => access(
            alloc, next, node,
        ),
        Node::Method(..)
        | Node::ComputedMethod(..)
        | Node::Getter(..)
        | Node::Setter(..)
        | Node::Function(..)
        | Node::Arrow(..)
        | Node::ExpressionArrow(..)
        | Node::FunctionDeclaration(..) => function(alloc, next, node),
        Node::Expression(_)
        | Node::Directive(_)
        | Node::Var(_)
        | Node::Lexical(..)
        | Node::Block(_)
        | Node::Empty
        | Node::If(..)
        | Node::Continue(_)
        | Node::Break(_)
        | Node::Return(_)
        | Node::Throw(_)
        | Node::Debugger
        | Node::Switch(..)
        | Node::Try(..)
        | Node::Labelled(..) => statement(alloc, next, node),
        Node::Do(..)
        | Node::While(..)
        | Node::For(..)
        | Node::ForIn(..)
        | Node::ForInTarget(..)
        | Node::ForOf(..)
        | Node::ForOfTarget(..) => repetition(alloc, next, node),
        Node::Import(..)
        | Node::ExportAll(..)
        | Node::ExportNames(..)
        | Node::Export(_)
        | Node::ExportDefault(_) => module_item(alloc, next, node),
        _ => operation(alloc, next, node),
    }
}

/// An operator with its operands, numbered.
#[cycle(numbers)]
fn operation(alloc: Global, next: &mut u64, node: &Node) -> Result<Node, AllocError>
    requires { IsTrue (kind.is_operation node.now) }
    ensures value { IfOk result (λ copy. copy ≡ (node_numbered node.now next.old).0) }
    ensures next { OnOk result (next.new ≡ (node_numbered node.now next.old).1) }
{
    match node {
        Node::Sequence(parts) => Ok(Node::Sequence(trees(alloc, next, parts.as_slice())?)),
        Node::Assign(op, target, value, named) => Ok(Node::Assign(
            *op,
            tree(alloc, next, target.get())?,
            tree(alloc, next, value.get())?,
            *named,
        )),
        Node::Cond(test, yes, no) => Ok(Node::Cond(
            tree(alloc, next, test.get())?,
            tree(alloc, next, yes.get())?,
            tree(alloc, next, no.get())?,
        )),
        Node::Logical(op, left, right) => Ok(Node::Logical(
            *op,
            tree(alloc, next, left.get())?,
            tree(alloc, next, right.get())?,
        )),
        Node::Binary(op, left, right) => Ok(Node::Binary(
            *op,
            tree(alloc, next, left.get())?,
            tree(alloc, next, right.get())?,
        )),
        Node::Unary(op, operand) => Ok(Node::Unary(*op, tree(alloc, next, operand.get())?)),
        Node::Update(op, target) => Ok(Node::Update(*op, tree(alloc, next, target.get())?)),
        _ => unreachable!(),
    }
}

/// A property, a call or `new`, numbered.
#[cycle(numbers)]
fn access(alloc: Global, next: &mut u64, node: &Node) -> Result<Node, AllocError>
    requires { IsTrue (kind.is_access node.now) }
    ensures value { IfOk result (λ copy. copy ≡ (node_numbered node.now next.old).0) }
    ensures next { OnOk result (next.new ≡ (node_numbered node.now next.old).1) }
{
    match node {
        Node::Member(link, object, name) => Ok(Node::Member(
            *link,
            tree(alloc, next, object.get())?,
            name.clone()?,
        )),
        Node::Index(link, object, key) => Ok(Node::Index(
            *link,
            tree(alloc, next, object.get())?,
            tree(alloc, next, key.get())?,
        )),
        Node::Call(link, callee, arguments) => Ok(Node::Call(
            *link,
            tree(alloc, next, callee.get())?,
            elements(alloc, next, arguments.as_slice())?,
        )),
        Node::New(callee, None) => Ok(Node::New(tree(alloc, next, callee.get())?, None)),
        Node::New(callee, Some(arguments)) => Ok(Node::New(
            tree(alloc, next, callee.get())?,
            Some(elements(alloc, next, arguments.as_slice())?),
        )),
        _ => unreachable!(),
    }
}

/// A name or a literal, numbered.
#[cycle(numbers)]
fn literal(alloc: Global, next: &mut u64, node: &Node) -> Result<Node, AllocError>
    requires { IsTrue (kind.is_literal node.now) }
    ensures value { IfOk result (λ copy. copy ≡ (node_numbered node.now next.old).0) }
    ensures next { OnOk result (next.new ≡ (node_numbered node.now next.old).1) }
{
    match node {
        Node::This => Ok(Node::This),
        Node::Name(name) => Ok(Node::Name(name.clone()?)),
        Node::Null => Ok(Node::Null),
        Node::Bool(value) => Ok(Node::Bool(*value)),
        Node::Num(value) => Ok(Node::Num(*value)),
        Node::Text(value) => Ok(Node::Text(value.clone()?)),
        Node::Template(texts, parts) => Ok(Node::Template(
            copies::texts(alloc, texts.as_slice())?,
            trees(alloc, next, parts.as_slice())?,
        )),
        Node::Array(parts) => Ok(Node::Array(elements(alloc, next, parts.as_slice())?)),
        Node::Object(parts) => Ok(Node::Object(properties(alloc, next, parts.as_slice())?)),
        _ => unreachable!(),
    }
}

/// A function or a method, numbered.
#[cycle(numbers)]
fn function(alloc: Global, next: &mut u64, node: &Node) -> Result<Node, AllocError>
    requires { IsTrue (kind.is_function node.now) }
    ensures value { IfOk result (λ copy. copy ≡ (node_numbered node.now next.old).0) }
    ensures next { OnOk result (next.new ≡ (node_numbered node.now next.old).1) }
{
    match node {
        Node::Method(name, parameters, body) => Ok(Node::Method(
            copies::property_name(name)?,
            copies::parameters(alloc, parameters)?,
            trees(alloc, next, body.as_slice())?,
        )),
        Node::ComputedMethod(name, parameters, body) => Ok(Node::ComputedMethod(
            tree(alloc, next, name.get())?,
            copies::parameters(alloc, parameters)?,
            trees(alloc, next, body.as_slice())?,
        )),
        Node::Getter(name, body) => Ok(Node::Getter(
            copies::property_name(name)?,
            trees(alloc, next, body.as_slice())?,
        )),
        Node::Setter(name, parameter, body) => Ok(Node::Setter(
            copies::property_name(name)?,
            copies::binding(parameter)?,
            trees(alloc, next, body.as_slice())?,
        )),
        Node::Function(name, parameters, body) => Ok(Node::Function(
            copies::binding_if_there(name)?,
            copies::parameters(alloc, parameters)?,
            trees(alloc, next, body.as_slice())?,
        )),
        Node::Arrow(parameters, body) => Ok(Node::Arrow(
            copies::parameters(alloc, parameters)?,
            trees(alloc, next, body.as_slice())?,
        )),
        Node::ExpressionArrow(parameters, value) => Ok(Node::ExpressionArrow(
            copies::parameters(alloc, parameters)?,
            tree(alloc, next, value.get())?,
        )),
        Node::FunctionDeclaration(name, parameters, body) => Ok(Node::FunctionDeclaration(
            copies::binding_if_there(name)?,
            copies::parameters(alloc, parameters)?,
            trees(alloc, next, body.as_slice())?,
        )),
        _ => unreachable!(),
    }
}

/// A statement that is no loop, numbered.
#[cycle(numbers)]
fn statement(alloc: Global, next: &mut u64, node: &Node) -> Result<Node, AllocError>
    requires { IsTrue (kind.is_statement node.now) }
    ensures value { IfOk result (λ copy. copy ≡ (node_numbered node.now next.old).0) }
    ensures next { OnOk result (next.new ≡ (node_numbered node.now next.old).1) }
{
    match node {
        Node::Expression(part) => Ok(Node::Expression(tree(alloc, next, part.get())?)),
        Node::Directive(part) => Ok(Node::Directive(tree(alloc, next, part.get())?)),
        Node::Var(parts) => Ok(Node::Var(declarations(alloc, next, parts.as_slice())?)),
        Node::Lexical(kind, parts) => Ok(Node::Lexical(
            *kind,
            declarations(alloc, next, parts.as_slice())?,
        )),
        Node::Block(parts) => Ok(Node::Block(trees(alloc, next, parts.as_slice())?)),
        Node::Empty => Ok(Node::Empty),
        Node::If(test, yes, no) => Ok(Node::If(
            tree(alloc, next, test.get())?,
            tree(alloc, next, yes.get())?,
            tree_if_there(alloc, next, no)?,
        )),
        Node::Continue(label) => Ok(Node::Continue(copies::text_if_there(label)?)),
        Node::Break(label) => Ok(Node::Break(copies::text_if_there(label)?)),
        Node::Return(value) => Ok(Node::Return(tree_if_there(alloc, next, value)?)),
        Node::Throw(value) => Ok(Node::Throw(tree(alloc, next, value.get())?)),
        Node::Debugger => Ok(Node::Debugger),
        Node::Switch(value, clauses) => Ok(Node::Switch(
            tree(alloc, next, value.get())?,
            cases(alloc, next, clauses.as_slice())?,
        )),
        Node::Try(body, parameter, handler, end) => Ok(Node::Try(
            tree(alloc, next, body.get())?,
            copies::binding_if_there(parameter)?,
            tree_if_there(alloc, next, handler)?,
            tree_if_there(alloc, next, end)?,
        )),
        Node::Labelled(label, body) => Ok(Node::Labelled(
            label.clone()?,
            tree(alloc, next, body.get())?,
        )),
        _ => unreachable!(),
    }
}

/// A loop, numbered.
#[cycle(numbers)]
fn repetition(alloc: Global, next: &mut u64, node: &Node) -> Result<Node, AllocError>
    requires { IsTrue (kind.is_repetition node.now) }
    ensures value { IfOk result (λ copy. copy ≡ (node_numbered node.now next.old).0) }
    ensures next { OnOk result (next.new ≡ (node_numbered node.now next.old).1) }
{
    match node {
        Node::Do(body, test) => Ok(Node::Do(
            tree(alloc, next, body.get())?,
            tree(alloc, next, test.get())?,
        )),
        Node::While(test, body) => Ok(Node::While(
            tree(alloc, next, test.get())?,
            tree(alloc, next, body.get())?,
        )),
        Node::For(first, test, update, body) => Ok(Node::For(
            tree_if_there(alloc, next, first)?,
            tree_if_there(alloc, next, test)?,
            tree_if_there(alloc, next, update)?,
            tree(alloc, next, body.get())?,
        )),
        Node::ForIn(head, object, body) => Ok(Node::ForIn(
            copies::head(head)?,
            tree(alloc, next, object.get())?,
            tree(alloc, next, body.get())?,
        )),
        Node::ForInTarget(target, object, body) => Ok(Node::ForInTarget(
            tree(alloc, next, target.get())?,
            tree(alloc, next, object.get())?,
            tree(alloc, next, body.get())?,
        )),
        Node::ForOf(head, object, body) => Ok(Node::ForOf(
            copies::head(head)?,
            tree(alloc, next, object.get())?,
            tree(alloc, next, body.get())?,
        )),
        Node::ForOfTarget(target, object, body) => Ok(Node::ForOfTarget(
            tree(alloc, next, target.get())?,
            tree(alloc, next, object.get())?,
            tree(alloc, next, body.get())?,
        )),
        _ => unreachable!(),
    }
}

/// A node that stands in modules alone, numbered.
#[cycle(numbers)]
fn module_item(alloc: Global, next: &mut u64, node: &Node) -> Result<Node, AllocError>
    requires { IsTrue (kind.is_module_item node.now) }
    ensures value { IfOk result (λ copy. copy ≡ (node_numbered node.now next.old).0) }
    ensures next { OnOk result (next.new ≡ (node_numbered node.now next.old).1) }
{
    match node {
        Node::Import(first, others, module) => Ok(Node::Import(
            copies::binding_if_there(first)?,
            copies::imports(alloc, others)?,
            module.clone()?,
        )),
        Node::ExportAll(outer, module) => Ok(Node::ExportAll(
            copies::binding_if_there(outer)?,
            module.clone()?,
        )),
        Node::ExportNames(names, module) => Ok(Node::ExportNames(
            copies::export_names(alloc, names.as_slice())?,
            copies::text_if_there(module)?,
        )),
        Node::Export(part) => Ok(Node::Export(tree(alloc, next, part.get())?)),
        Node::ExportDefault(part) => Ok(Node::ExportDefault(tree(alloc, next, part.get())?)),
        _ => unreachable!(),
    }
}
