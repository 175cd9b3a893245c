//! The names that are declared, in order, and which of them is directly below which.
ghost use Rattle.std.specs.Prelude.{◌≡◌, ◌<◌, ◌≤◌, ◌++◌, [], length, true, IfOk, OnOk};
ghost use Rattle.gms_scope.specs.Below.{is_below_within, is_met_before};
ghost use Rattle.gms_scope.specs.Entries.{above_of, among, entry};
ghost use Rattle.gms_scope.specs.Order.{IsOrder, IsNodeStep, entries_of_nodes, entry_of_node, is_under, names_of_nodes, node_at, order_of};

use std::alloc::{AllocError, Global};

/// One declaration of a name of any kind. The place of a node is its index in the list of nodes,
/// from 0.
///
/// Only a one-dimensional set may have a domain set: the set in its domain, or the set of an alias
/// there. It is directly below this set: after `set j(i);`, `j` is below `i`, and `i` is above `j`.
#[derive(Clone, Copy)]
pub struct Node {
    /// The number of the name that is declared.
    pub name: u32,
    /// The number of the domain set that this declaration gives the name; `None` if it gives the
    /// name no domain set.
    pub below: Option<u32>,
    /// How many sets are above this node: the set `below`, the domain set of that set, and so on.
    pub depth: usize,
    /// The index in the list of nodes of the first node that declares the set `below`; this node's
    /// own index if `below` is `None`.
    pub above: usize,
    /// The index in the list of nodes of a node one or more steps above this node, each step from a
    /// node to its `above`; this node's own index if `below` is `None`. Each step leads to a lesser
    /// index, so a search upward for the index i may skip to `far` unless `far` is below i.
    pub far: usize,
}

/// The declarations of names in a program, in order. They tell which one-dimensional sets are below
/// which: a set is below its domain set (the set in its domain), below the domain set of that set,
/// and so on.
pub struct Order {
    /// One node for each declaration of a name, in the order of the declarations.
    pub nodes: Vec<Node>,
    /// For each name of the program, by its number: 1 plus the index in `nodes` of the first node
    /// that declares the name; 0 if no node does.
    pub first: Vec<usize>,
}

// Written out, so that it is proved once, and not in each crate that drops one.
impl Drop for Order {
    fn drop(self) {
        let Self { nodes: _, first: _ } = self;
    }
}

impl Order {
    /// No declarations, for a program with the names 0 to `names - 1`. The error is out of memory.
    pub fn new(alloc: Global, names: u32) -> Result<Order, AllocError>
        ensures { IfOk result (λ order. IsOrder order × (order.nodes.items ≡ []) × (length order.first.items ≡ names)) }
    {
        let mut first = Vec::new(alloc);
        for _ in 0..names {
            first.push(0)?;
        }
        Ok(Order {
            nodes: Vec::new(alloc),
            first,
        })
    }
}

impl Order {
    /// The place of the first node of a name, plus 1; 0 if nothing declares it.
    fn order(&self, name: u32) -> usize
        requires { IsOrder self.now }
        ensures { result ≡ order_of (names_of_nodes self.now.nodes.items) name }
    {
        match self.first.get(name as usize) {
            Some(order) => *order,
            None => 0,
        }
    }

    /// The node at a place; past the last one a name that is below nothing.
    fn node(&self, place: usize) -> Node
        ensures { result ≡ node_at self.now.nodes.items place }
    {
        match self.nodes.get(place) {
            Some(node) => *node,
            None => Node {
                name: 0,
                below: None,
                depth: 0,
                above: place,
                far: place,
            },
        }
    }

    /// Appends a declaration (a node) of the name `name`. It has the domain set `above` if `above`
    /// is a set that an earlier node declares, and otherwise no domain set. If the program has no
    /// name `name`, the call changes nothing. The indices in `first` and in the nodes must be right
    /// (`IsOrder`), and are right after the call. The error is out of memory.
    pub fn declare(&mut self, name: u32, above: Option<u32>) -> Result<(), AllocError>
        requires { IsOrder self.old }
        ensures order { IsOrder self.new }
        ensures names { length self.new.first.items ≡ length self.old.first.items }
        ensures nodes { OnOk result
            (entries_of_nodes self.new.nodes.items ≡ entries_of_nodes self.old.nodes.items ++
            entry (length self.old.first.items) (entries_of_nodes self.old.nodes.items) name above) }
    {
        let at = name as usize;
        if at >= self.first.len() {
            return Ok(());
        }
        let node = self.new_node(name, above);
        self.nodes.push(node)?;
        if self.first[at] == 0 {
            self.first[at] = self.nodes.len();
        }
        Ok(())
    }

    /// The node of a declaration that is appended: directly below the set `above`, if that is
    /// declared, and otherwise below none.
    fn new_node(&self, name: u32, above: Option<u32>) -> Node
        requires { IsOrder self.now }
        ensures entry { entry_of_node result ≡ (name, among (entries_of_nodes self.now.nodes.items) above) }
        ensures step { IsNodeStep self.now.nodes.items (length self.now.nodes.items) result }
    {
        let last = self.nodes.len();
        let order = match above {
            Some(set) => self.order(set),
            None => 0,
        };
        if order == 0 {
            return Node {
                name,
                below: None,
                depth: 0,
                above: last,
                far: last,
            };
        }
        let near = self.node(order - 1);
        Node {
            name,
            below: above,
            depth: near.depth.saturating_add(1),
            above: order - 1,
            far: self.far_from(order - 1),
        }
    }

    /// The place farther above that a node directly below this one stores: two equal steps make
    /// one.
    fn far_from(&self, above: usize) -> usize
        requires order { IsOrder self.now }
        requires there { above < length self.now.nodes.items }
        ensures at_most { result ≤ above }
        ensures under { is_under self.now.nodes.items above result ≡ true }
    {
        let near = self.node(above);
        let far = self.node(near.far);
        let farther = self.node(far.far);
        let step = near.depth.saturating_sub(far.depth);
        let next = far.depth.saturating_sub(farther.depth);
        if step == next { far.far } else { above }
    }

    /// Whether the first declaration of the name `name` precedes that of the name `other`. True if
    /// only `name` is declared, and false if `name` is not declared. The indices in `first` and in
    /// the nodes must be right (`IsOrder`).
    pub fn is_before(&self, name: u32, other: u32) -> bool
        requires { IsOrder self.now }
        ensures { result ≡ is_met_before (names_of_nodes self.now.nodes.items) name other }
    {
        let order = self.order(name);
        let others = self.order(other);
        order > 0 && (others == 0 || order < others)
    }

    /// Whether the set `name` is the set `other`, or reaches it by steps, each from a
    /// one-dimensional set to the domain set that its first declaration gives it. The indices in
    /// `first` and in the nodes must be right (`IsOrder`).
    pub fn is_below(&self, name: u32, other: u32) -> bool
        requires { IsOrder self.now }
        ensures { result ≡ is_below_within (length self.now.nodes.items) (above_of (entries_of_nodes self.now.nodes.items)) name other }
    {
        let order = self.order(name);
        let others = self.order(other);
        if order == 0 || others == 0 {
            return name == other;
        }
        self.reaches(order - 1, others - 1)
    }

    /// Whether a node is below another, or is it: the path up from it reaches the other's place.
    fn reaches(&self, node: usize, other: usize) -> bool
        requires order { IsOrder self.now }
        requires there { node < length self.now.nodes.items }
        ensures { result ≡ is_under self.now.nodes.items node other }
    {
        let mut place = node;
        while place > other && self.node(place).above < place {
            place = self.step_up(place, other);
        }
        place == other
    }

    /// The farther node that a node stores, unless it is above a place; otherwise the one that it
    /// is directly below.
    fn step_up(&self, node: usize, place: usize) -> usize
        requires order { IsOrder self.now }
        requires there { node < length self.now.nodes.items }
        requires below { place < node }
        requires stepping { (node_at self.now.nodes.items node).above < node }
        ensures smaller { result < node }
        ensures same { is_under self.now.nodes.items result place ≡ is_under self.now.nodes.items node place }
    {
        let node = self.node(node);
        if node.far >= place {
            node.far
        } else {
            node.above
        }
    }
}
