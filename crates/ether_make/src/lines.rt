//! The frames that a line of text means.
ghost use Rattle.std.specs.Prelude.{◌≡◌, None};
ghost use Rattle.serde_json.specs.View.{view};
ghost use Rattle.ether_make.specs.Lines.{one_link, sized};
ghost use Rattle.ether_make.specs.LineViews.{IsOwned, LineOf, TellsLine};
ghost use Rattle.ether_make.specs.Refusals.{refusal_view, refused};
ghost use Rattle.ether_make.specs.Templates.{template_meaning};

use crate::refusal::{Fault, Reason, Refusal};
use crate::repeated::unique_value;
use crate::template::{Template, make_template};
use serde_json::Value;
use std::alloc::Global;

/// The most bytes of a frame: the most that a packet of a capture has.
const LONGEST: usize = 262_144;

/// Why a line means no frame.
#[derive(Drop, Debug)]
pub enum LineFault {
    /// It is no JSON text.
    NotJson,
    /// It is no object.
    NotObject,
    /// An object in it has two members of one name.
    Repeated,
    /// Its object is refused.
    Refused {
        /// The header's index, if a header is refused.
        header: Option<usize>,
        /// The name of the member.
        member: String,
        /// Why it is refused.
        reason: Reason,
    },
    /// The frame is too long.
    TooLong,
    /// There is no memory.
    Memory,
}

/// The first line that means no frame.
#[derive(Drop, Debug)]
pub struct Stop {
    /// Its number; the first line has 1.
    pub line: usize,
    /// Why it means none.
    pub fault: LineFault,
}

impl Stop {
    /// There is no memory.
    pub const MEMORY: Stop = Stop {
        line: 0,
        fault: LineFault::Memory,
    };
}

/// The frames of a line, after frames with this link type, if there are any.
pub fn line_template(alloc: Global, text: &[u8], link: Option<u16>) -> Result<Template, LineFault>
    ensures { LineOf link text.now result }
{
    let value = match unique_value(alloc, text) {
        Ok(value) => value,
        Err(fault) => return Err(fault),
    };
    if !value.is_object() {
        return Err(LineFault::NotObject);
    }
    object_template(alloc, &value, link)
}

/// The frames of an object.
fn object_template(alloc: Global, object: &Value, link: Option<u16>) -> Result<Template, LineFault>
    ensures { TellsLine (one_link link (sized (template_meaning (view object.now)))) result }
{
    match sized_template(alloc, object) {
        Ok(template) => match link {
            Some(link) if template.frame.link != link => {
                Err(owned_refusal(alloc, "link", Reason::OtherFrames))
            }
            _ => Ok(template),
        },
        Err(fault) => Err(fault),
    }
}

/// The frames of an object, whatever their link type is.
fn sized_template(alloc: Global, object: &Value) -> Result<Template, LineFault>
    ensures { TellsLine (sized (template_meaning (view object.now))) result }
{
    match make_template(alloc, object) {
        Ok(template) => {
            if template.frame.bytes.len() > LONGEST {
                return Err(LineFault::TooLong);
            }
            Ok(template)
        }
        Err(Fault::Refused(refusal)) => Err(owned(alloc, &refusal)),
        Err(Fault::Memory) => Err(LineFault::Memory),
    }
}

/// A refusal that borrows nothing.
fn owned(alloc: Global, refusal: &Refusal) -> LineFault
    ensures { IsOwned (refusal_view refusal.now) result }
{
    match String::from_str(alloc, refusal.member) {
        Ok(member) => LineFault::Refused {
            header: refusal.header,
            member,
            reason: refusal.reason,
        },
        Err(_) => LineFault::Memory,
    }
}

/// The refusal of a member that is no header's.
pub(crate) fn owned_refusal(alloc: Global, member: &str, reason: Reason) -> LineFault
    ensures { IsOwned (refused None member.now reason) result }
{
    owned(
        alloc,
        &Refusal {
            header: None,
            member,
            reason,
        },
    )
}
