// Tags.
ghost use Rattle.std.specs.Prelude.{◌≡◌, ◌<◌, List, ℕ, length, drop};
ghost use Rattle.xml_tags.specs.Tags.{tail, tag_end};
ghost use Rattle.xml_tags.specs.Attributes.{name_space};
ghost use Rattle.document.specs.Steps.{taken_answer};
ghost use Rattle.document.specs.Tags.{other_step, bound_step, alert_step, is_alert, start_step, close_step, is_right_end, end_step, named_until, tag_step};
ghost use Rattle.document.specs.Tested.{tested};

use crate::elements::{empty_step, open_step};
use crate::names::{local_name, name_in, name_under};
use crate::{Event, Mode, Refusal, modes};
use rules::Fault;
use schema::class;
use xml_tags::{Binding, NameSpaceError, Tail};

// kept: text, mode, name and its end are four parameters. In a struct of them each clause names them through `entry`, as in
// `other_step tag.entry.s.now tag.entry.m tag.entry.name.now (tail tag.entry.s.now tag.entry.n)`.

// ---- start tags

// A start tag other than the alert's, whose name ends at n.
fn other_step(s: &[u8], m: Mode, name: &[u8], n: usize) -> Result<(Mode, Event), Refusal>
    ensures { tested s.now (taken_answer result) ≡ other_step s.now m name.now (tail s.now n) }
{
    let class = schema::names::class_of(name_in(s, m, name));
    match xml_tags::ends::read_tail(s, n) {
        Some(Tail::Open(next)) => open_step(s, m, class, next),
        Some(Tail::Empty(next)) => empty_step(m, class, next),
        None => Err(m.refuse(Fault::Form)),
    }
}

// The alert's start tag, which binds a prefix.
#[tactic(auto, unfolding(crate::specs::Tags::bound_step))]
fn bound_step(s: &[u8], m: Mode, name: &[u8], bound: Binding) -> Result<(Mode, Event), Refusal>
    ensures { tested s.now (taken_answer result) ≡ bound_step s.now m name.now bound }
{
    let prefix = text::part(s, bound.from, bound.until);
    if !schema::names::is_named(name_under(prefix, name), class::ALERT) {
        return Err(m.refuse(Fault::Element));
    }
    let after = Mode {
        at: bound.next,
        state: schema::order::next(modes::BEFORE, class::ALERT),
        leaf: None,
        prefix_start: bound.from,
        prefix_end: bound.until,
        ..m
    };
    Ok((after, Event::Opened(class::ALERT, m.at)))
}

// The alert's start tag, whose name ends at n.
fn alert_step(s: &[u8], m: Mode, name: &[u8], n: usize) -> Result<(Mode, Event), Refusal>
    ensures { tested s.now (taken_answer result) ≡ alert_step s.now m name.now (name_space s.now n) }
{
    match xml_tags::attributes::read_name_space(s, n) {
        Ok(bound) => bound_step(s, m, name, bound),
        Err(NameSpaceError::Empty) => Err(m.refuse(Fault::Element)),
        Err(NameSpaceError::Fault) => Err(m.refuse(Fault::Form)),
    }
}

// Whether the start tag of a name is the alert's.
#[tactic(auto, unfolding(crate::specs::Tags::is_alert))]
fn is_alert(m: Mode, name: &[u8]) -> bool
    ensures { result ≡ is_alert m name.now }
{
    m.state == modes::BEFORE && schema::names::is_named(local_name(name), class::ALERT)
}

// A start tag whose name ends at n.
#[tactic(auto, unfolding(crate::specs::Tags::start_step))]
fn start_step(s: &[u8], m: Mode, name: &[u8], n: usize) -> Result<(Mode, Event), Refusal>
    ensures { tested s.now (taken_answer result) ≡ start_step s.now m name.now n }
{
    if name.is_empty() || m.state == modes::OVER {
        return Err(m.refuse(Fault::Form));
    }
    if is_alert(m, name) {
        return alert_step(s, m, name, n);
    }
    other_step(s, m, name, n)
}

// ---- end tags

// A right end tag, which ends before an offset.
#[tactic(auto, unfolding(crate::specs::Tags::close_step))]
fn close_step(m: Mode, next: usize) -> Result<(Mode, Event), Refusal>
    ensures { (l : List ℕ) → tested l (taken_answer result) ≡ close_step m next }
{
    if m.leaf.is_some() {
        return Ok((m.moved(next, m.state, None), Event::Silent));
    }
    let state = schema::order::next(m.state, 0);
    if state == 0 {
        return Err(m.refuse(Fault::Element));
    }
    Ok((
        m.moved(next, state, None),
        Event::Closed(schema::order::container_of(m.state)),
    ))
}

// Whether the end tag of a name is the one that is due.
fn is_right_end(s: &[u8], m: Mode, name: &[u8]) -> bool
    ensures { result ≡ is_right_end s.now m name.now }
{
    let class = m.open_class();
    class != 0 && schema::names::is_named(name_in(s, m, name), class)
}

// An end tag whose name ends at n.
fn end_step(s: &[u8], m: Mode, name: &[u8], n: usize) -> Result<(Mode, Event), Refusal>
    ensures { tested s.now (taken_answer result) ≡ end_step s.now m name.now (tail s.now n) }
{
    match xml_tags::ends::read_tail(s, n) {
        Some(Tail::Open(next)) if is_right_end(s, m, name) => close_step(m, next),
        _ => Err(m.refuse(Fault::Form)),
    }
}

// ---- any tag

// Where the name ends that starts at an offset; a tag without its end is refused. A name holds no quote, so the end is looked for after it.
#[tactic(auto, using(xml_tags::proofs::Skips::tag_end_name))]
fn named_until(s: &[u8], from: usize) -> Result<usize, Refusal>
    ensures { result ≡ named_until s.now from (tag_end None from (drop from s.now)) }
{
    let n = xml_tags::ends::name_end(s, from);
    if xml_tags::ends::tag_end(s, n).is_none() {
        return Err(Refusal::short(s));
    }
    Ok(n)
}

// The tag at the mode's offset.
#[tactic(auto, using(crate::proofs::EndTags::end_tag_end), unfolding(crate::specs::Tags::tag_step, crate::specs::Tags::ended_step))]
pub fn tag_step(s: &[u8], m: Mode) -> Result<(Mode, Event), Refusal>
    requires { m.at < length s.now }
    ensures { tested s.now (taken_answer result) ≡ tag_step s.now m }
{
    if text::starts_at(s, m.at, b"</") {
        let n = named_until(s, m.at + 2)?;
        return end_step(s, m, text::part(s, m.at + 2, n), n);
    }
    let n = named_until(s, m.at + 1)?;
    start_step(s, m, text::part(s, m.at + 1, n), n)
}
