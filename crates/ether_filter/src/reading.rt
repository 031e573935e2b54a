//! Reads an expression word by word.
ghost use Rattle.std.specs.Prelude.{◌≡◌, ◌+◌, ◌<◌, ◌≤◌, ◌∷◌, [], Ok, Err, MatchResult, length, reverse};
ghost use Rattle.arrayvec.specs.ArrayVec.{array_vec_len};
ghost use Rattle.ether_filter.specs.Steps.{member as member_of};
ghost use Rattle.ether_filter.specs.ExpressionReading.{state_of, begun, closed, completed, settled, joined_by, closed_group, operator_taken, stepped, operand_taken, id_taken, member_taken, taken, whole, ended, size_of, differ as differ_of};

use crate::awaited::{Awaited, Numbered, Step, existence, first_step, kind_of, member, next_step};
use crate::filter::MAX_WORDS;
use crate::filter_error::FilterErrorKind;
use crate::node::{Node, Operator};
use crate::primitive::Primitive;
use crate::subject::Subject;
use crate::token::Token;
use arrayvec::ArrayVec;

/// A part of an expression that is not complete yet.
#[derive(Clone, Copy)]
pub(crate) enum Pending {
    /// A parenthesis that is not closed.
    Open,
    /// A negation without its operand.
    Not,
    /// An operator without its right operand.
    Join(Operator),
}

impl Default for Pending {
    fn default() -> Pending {
        Pending::Open
    }
}

/// An expression that is read up to some word.
#[derive(Drop)]
pub(crate) struct Reading {
    /// The nodes of its complete parts.
    nodes: ArrayVec<Node, MAX_WORDS>,
    /// The incomplete parts, the innermost last.
    pending: ArrayVec<Pending, MAX_WORDS>,
    awaited: Awaited,
}

impl Reading {
    /// The expression before its first character is read.
    pub fn new() -> Reading
        ensures { state_of result ≡ begun }
    {
        Reading {
            nodes: ArrayVec::new(),
            pending: ArrayVec::new(),
            awaited: Awaited::Operand,
        }
    }

    /// Consumes the next word.
    pub fn take(&mut self, token: Token) -> Result<(), FilterErrorKind>
        requires { size_of (state_of self.old) < MAX_WORDS }
        ensures { MatchResult result (λ _. taken (state_of self.old) token ≡ Ok (state_of self.new))
            (λ kind. taken (state_of self.old) token ≡ Err kind) }
    {
        match self.awaited {
            Awaited::Operand => match token {
                Token::Not => {
                    self.pending.push(Pending::Not);
                    Ok(())
                }
                Token::Open => {
                    self.pending.push(Pending::Open);
                    Ok(())
                }
                _ => self.step(first_step(token)),
            },
            Awaited::Operator => self.take_operator(token),
            Awaited::VlanId => match token {
                Token::Number(_) => {
                    self.step(next_step(Awaited::Number(Numbered::VlanId), token))
                }
                Token::Join(_) | Token::Close => {
                    self.complete(Primitive::Vlan);
                    self.take_operator(token)
                }
                _ => Err(FilterErrorKind::ExpectedVlanIdOrOperator),
            },
            Awaited::Relation(subject) => match token {
                Token::Relation(_) | Token::Mask | Token::In => {
                    self.step(next_step(Awaited::Relation(subject), token))
                }
                Token::Join(_) | Token::Close => {
                    self.complete(existence(subject));
                    self.take_operator(token)
                }
                _ => Err(FilterErrorKind::ExpectedRelationOrOperator),
            },
            Awaited::FirstMember(subject, mask) => self.take_member(subject, mask, token),
            Awaited::Member(subject, mask) => {
                self.take_member(subject, mask, token)?;
                self.nodes.push(Node::Join(Operator::Or));
                Ok(())
            }
            Awaited::SetEnd(subject, mask) => match token {
                Token::CloseSet => {
                    self.close();
                    Ok(())
                }
                _ => self.step(next_step(Awaited::SetEnd(subject, mask), token)),
            },
            awaited => self.step(next_step(awaited, token)),
        }
    }

    /// Does what a word does to a primitive.
    fn step(&mut self, step: Step) -> Result<(), FilterErrorKind>
        requires { array_vec_len self.old.nodes + array_vec_len self.old.pending < MAX_WORDS }
        ensures { MatchResult result (λ _. stepped (state_of self.old) step ≡ Ok (state_of self.new))
            (λ kind. stepped (state_of self.old) step ≡ Err kind) }
    {
        match step {
            Step::Done(primitive) => self.complete(primitive),
            Step::More(awaited) => self.awaited = awaited,
            Step::Fails => return Err(kind_of(self.awaited)),
        }
        Ok(())
    }

    /// Consumes a value of a set.
    fn take_member(
        &mut self,
        subject: Subject,
        mask: u64,
        token: Token,
    ) -> Result<(), FilterErrorKind>
        requires { array_vec_len self.old.nodes + array_vec_len self.old.pending < MAX_WORDS }
        ensures state { MatchResult result
            (λ _. member_taken subject mask (state_of self.old) (member_of subject mask token) ≡ Ok (state_of self.new))
            (λ kind. member_taken subject mask (state_of self.old) (member_of subject mask token) ≡ Err kind) }
        ensures len { array_vec_len self.new.nodes + array_vec_len self.new.pending
            ≤ array_vec_len self.old.nodes + array_vec_len self.old.pending + 1 }
    {
        let Some(primitive) = member(subject, mask, token) else {
            return Err(kind_of(self.awaited));
        };
        self.nodes.push(Node::Test(primitive));
        self.awaited = Awaited::SetEnd(subject, mask);
        Ok(())
    }

    /// Adds a primitive, which is an operand.
    fn complete(&mut self, primitive: Primitive)
        requires { array_vec_len self.old.nodes + array_vec_len self.old.pending < MAX_WORDS }
        ensures state { state_of self.new ≡ completed (state_of self.old) primitive }
        ensures len { array_vec_len self.new.nodes + array_vec_len self.new.pending
            ≡ array_vec_len self.old.nodes + array_vec_len self.old.pending + 1 }
    {
        self.nodes.push(Node::Test(primitive));
        self.close();
    }

    /// Completes the negations of the operand that was read last.
    fn close(&mut self)
        requires { array_vec_len self.old.nodes + array_vec_len self.old.pending ≤ MAX_WORDS }
        ensures state { state_of self.new ≡ closed self.old.nodes.items (reverse self.old.pending.items) }
        ensures len { array_vec_len self.new.nodes + array_vec_len self.new.pending
            ≡ array_vec_len self.old.nodes + array_vec_len self.old.pending }
    {
        while let Some(last) = self.pending.pop() {
            if !matches!(last, Pending::Not) {
                self.pending.push(last);
                break;
            }
            self.nodes.push(Node::Not);
        }
        self.awaited = Awaited::Operator;
    }

    /// Consumes a word after an operand.
    fn take_operator(&mut self, token: Token) -> Result<(), FilterErrorKind>
        requires { array_vec_len self.old.nodes + array_vec_len self.old.pending < MAX_WORDS }
        ensures { MatchResult result (λ _. operator_taken (state_of self.old) token ≡ Ok (state_of self.new))
            (λ kind. operator_taken (state_of self.old) token ≡ Err kind) }
    {
        match token {
            Token::Join(operator) => self.join(operator),
            Token::Close => self.close_group(),
            _ => Err(FilterErrorKind::ExpectedOperator),
        }
    }

    /// Consumes an operator.
    fn join(&mut self, operator: Operator) -> Result<(), FilterErrorKind>
        requires { array_vec_len self.old.nodes + array_vec_len self.old.pending < MAX_WORDS }
        ensures { MatchResult result
            (λ _. joined_by operator self.old.nodes.items (reverse self.old.pending.items) ≡ Ok (state_of self.new))
            (λ kind. joined_by operator self.old.nodes.items (reverse self.old.pending.items) ≡ Err kind) }
    {
        match self.pending.pop() {
            Some(Pending::Join(last)) => {
                if differ(last, operator) {
                    return Err(FilterErrorKind::MixedOperators);
                }
                self.nodes.push(Node::Join(last));
            }
            Some(open) => self.pending.push(open),
            None => {}
        }
        self.pending.push(Pending::Join(operator));
        self.awaited = Awaited::Operand;
        Ok(())
    }

    /// Consumes a closing parenthesis.
    fn close_group(&mut self) -> Result<(), FilterErrorKind>
        requires { array_vec_len self.old.nodes + array_vec_len self.old.pending ≤ MAX_WORDS }
        ensures { MatchResult result (λ _. operator_taken (state_of self.old) Token.Close ≡ Ok (state_of self.new))
            (λ kind. operator_taken (state_of self.old) Token.Close ≡ Err kind) }
    {
        self.settle();
        match self.pending.pop() {
            Some(Pending::Open) => {
                self.close();
                Ok(())
            }
            _ => Err(FilterErrorKind::Unopened),
        }
    }

    /// Completes the operator before an operand.
    fn settle(&mut self)
        requires { array_vec_len self.old.nodes + array_vec_len self.old.pending ≤ MAX_WORDS }
        ensures state { state_of self.new
            ≡ settled self.old.nodes.items (reverse self.old.pending.items) self.old.awaited }
        ensures len { array_vec_len self.new.nodes + array_vec_len self.new.pending
            ≡ array_vec_len self.old.nodes + array_vec_len self.old.pending }
    {
        match self.pending.pop() {
            Some(Pending::Join(operator)) => self.nodes.push(Node::Join(operator)),
            Some(open) => self.pending.push(open),
            None => {}
        }
    }

    /// The nodes of the expression, if it is complete.
    pub fn finish(mut self) -> Result<ArrayVec<Node, MAX_WORDS>, FilterErrorKind>
        requires { size_of (state_of self) ≤ MAX_WORDS }
        ensures { MatchResult result (λ ns. ended (state_of self) ≡ Ok ns.items)
            (λ kind. ended (state_of self) ≡ Err kind) }
    {
        match self.awaited {
            Awaited::Operator => {}
            Awaited::VlanId => self.complete(Primitive::Vlan),
            Awaited::Relation(subject) => self.complete(existence(subject)),
            awaited => return Err(kind_of(awaited)),
        }
        self.settle();
        if self.pending.is_empty() {
            Ok(self.nodes)
        } else {
            Err(FilterErrorKind::Unclosed)
        }
    }
}

/// Whether two operators differ.
fn differ(first: Operator, second: Operator) -> bool
    ensures { result ≡ differ_of first second }
{
    matches!(
        (first, second),
        (Operator::And, Operator::Or) | (Operator::Or, Operator::And)
    )
}
