//! Where the evaluation of an expression goes on after each primitive.
ghost use Rattle.std.specs.Prelude.{◌≡◌, ◌<◌, ◌≤◌, ◌++◌, ℕ, List, length, take, get_or};
ghost use Rattle.ether_filter.specs.Expressions.{Expression};
ghost use Rattle.ether_filter.specs.Postfix.{postfix};
ghost use Rattle.ether_filter.specs.Jumps.{jump_at, ArePassed, Passes, asks_tags as asks_tags_of, is_of_tags as is_of_tags_of, AreFilled, AreJumps, first_jump, chosen, negated as negated_of, before as before_of};

use crate::filter::MAX_WORDS;
use crate::node::{Node, Operator};
use crate::primitive::Primitive;

/// The end of an evaluation: the expression holds.
pub(crate) const HOLDS: u8 = 255;

/// The end of an evaluation: the expression does not hold.
const FAILS: u8 = 254;

/// Where the evaluation goes on after a primitive: the index of a node, or an end.
#[repr(C)]
#[derive(Clone, Copy, Debug, Default)]
pub struct Jump {
    if_true: u8,
    if_false: u8,
}

impl Jump {
    /// Where it goes on if the primitive matches, or if it does not.
    #[inline]
    pub(crate) fn after(self, matches: bool) -> usize
        ensures { result ≡ chosen matches self }
    {
        usize::from(if matches { self.if_true } else { self.if_false })
    }
}

/// The jumps after the primitives of an expression, each at the index of its node.
pub(crate) fn jumps_of(nodes: &[Node]) -> [Jump; MAX_WORDS]
    requires { length nodes.now ≤ MAX_WORDS }
    ensures { (x : Expression) → nodes.now ≡ postfix x → AreJumps result 0 x first_jump }
{
    let jump = Jump {
        if_true: HOLDS,
        if_false: FAILS,
    };
    let mut jumps = [jump; MAX_WORDS];
    fill(&mut jumps, nodes, nodes.len(), jump);
    jumps
}

/// Where the evaluation of a packet without VLAN tags goes on after each primitive that asks for VLAN tags: past all
/// those that directly follow it.
pub(crate) fn past_tags(nodes: &[Node], jumps: &[Jump; MAX_WORDS]) -> [u8; MAX_WORDS]
    requires { length nodes.now ≤ MAX_WORDS }
    ensures { ArePassed nodes.now jumps.now result }
{
    let mut past = [0; MAX_WORDS];
    let mut at = nodes.len();
    while at > 0 {
        at -= 1;
        past[at] = past_next(nodes, &past, at, jumps[at].if_false);
    }
    past
}

/// .. after the primitive at the index `at`, if it does not match and goes on at `next`.
fn past_next(nodes: &[Node], past: &[u8; MAX_WORDS], at: usize, next: u8) -> u8
    requires { length nodes.now ≤ MAX_WORDS }
    ensures { (js : List Jump) → (jump_at js at).if_false ≡ next
        → ((i : ℕ) → at < i → i < length nodes.now → Passes nodes.now js i (get_or past.now i 0))
        → Passes nodes.now js at result }
{
    let index = usize::from(next);
    if at < index && index < nodes.len() && asks_tags(nodes[index]) {
        return past[index];
    }
    next
}

/// Whether a node asks for VLAN tags.
fn asks_tags(node: Node) -> bool
    ensures { result ≡ asks_tags_of node }
{
    match node {
        Node::Test(primitive) => is_of_tags(&primitive),
        _ => false,
    }
}

/// Whether a primitive asks for VLAN tags.
#[inline]
pub(crate) fn is_of_tags(primitive: &Primitive) -> bool
    ensures { result ≡ is_of_tags_of primitive.now }
{
    matches!(
        primitive,
        Primitive::Vlan | Primitive::VlanId(_) | Primitive::OuterVlan(_) | Primitive::InnerVlan(_)
    )
}

/// Fills in the jumps of the expression whose nodes end before the index `end`, and returns the index at which they
/// begin.
fn fill(jumps: &mut [Jump; MAX_WORDS], nodes: &[Node], end: usize, jump: Jump) -> usize
    requires nodes { end ≤ length nodes.now }
    requires room { length nodes.now ≤ MAX_WORDS }
    ensures begin { result ≤ end }
    ensures filled { (x : Expression) (front : List Node) → take end nodes.now ≡ front ++ postfix x
        → AreFilled jumps.old jumps.new (length front) end x jump result }
{
    if end == 0 {
        return 0;
    }
    let last = end - 1;
    match nodes[last] {
        Node::Test(_) => {
            jumps[last] = jump;
            last
        }
        Node::Not => fill(jumps, nodes, last, negated(jump)),
        Node::Join(operator) => {
            let middle = fill(jumps, nodes, last, jump);
            fill(jumps, nodes, middle, before(operator, middle as u8, jump))
        }
    }
}

/// The jump of the operand of a `not` that has this jump.
fn negated(jump: Jump) -> Jump
    ensures { result ≡ negated_of jump }
{
    Jump {
        if_true: jump.if_false,
        if_false: jump.if_true,
    }
}

/// The jump of a left operand, if the right one begins at `right` and both together have this jump.
fn before(operator: Operator, right: u8, jump: Jump) -> Jump
    ensures { result ≡ before_of operator right jump }
{
    match operator {
        Operator::And => Jump {
            if_true: right,
            ..jump
        },
        Operator::Or => Jump {
            if_false: right,
            ..jump
        },
    }
}
