use sqlite_items::Items;
use sr_ast::Tree;
use sr_shared::Shared;
use sr_text::Goal;

/// A script or a module (ECMA-262 16.1, 16.2).
#[derive(Drop)]
pub struct Unit {
    /// Which of the two.
    pub goal: Goal,
    /// Whether it is strict mode code: a module, or a script with a directive that says so (11.2.2).
    pub strict: bool,
    /// Its items in order. Their trees are numbered from 0, a tree before its parts and parts in order.
    pub items: Items<Shared<Tree>>,
}
