//! Judges messages a step at a time, in one loop over events: while one message waits for a reply, others go on. An event is a line of the
//! standard input.
#![tactic(auto)]

mod event;

ghost use Rattle.std.specs.Prelude.{◌≡◌, ◌⊎◌, ◌<◌, ◌++◌, List, ℕ, codes, is_ok, length, slice_get, false, true, IfOk, IfSome, IsOk, OnOk, OnErr, None};
ghost use Rattle.dsec_course.specs.Course.{CourseAnswers};
ghost use Rattle.dsec_course.specs.Ending.{steps_left};
ghost use Rattle.dsec_core.specs.Validating.{with_course, world_by};
ghost use Rattle.dsec_crypto.specs.StandIn.{stand_in};
ghost use Rattle.dsec_walk.specs.Views.{input_view};
ghost use Rattle.std.specs.Io.KnownBytes.{Appends};
ghost use Rattle.dsec_found.specs.Outcomes.{state_view};
ghost use Rattle.dsec_spec.specs.Outside.{SentFront};
ghost use Rattle.dsec_uses_steps.specs.Events.{IsEventOf};
ghost use Rattle.dsec_uses_steps.specs.Going.{AreTaken, Breaks, FailsOnce, IsLeft, IsTaken, StepsOn, StopsAt, TakesIn, TakesInput};
ghost use Rattle.dsec_uses_steps.specs.declared.event.Event.{Event};
ghost use Rattle.dsec_uses_steps.specs.Lines.{GoesTo, IsAtHand, IsBegun, IsPut, ask_text, end_text, state_text, step_text};

use anyhow::{Context, Result};
use dsec_anchors::TrustAnchors;
use dsec_core::{Input, Step, Validation};
use dsec_crypto::StandIn;
use dsec_group::{NoMemo, Steps, ValidationState};
use dsec_lookup::{held_node, put_node};
use dsec_message::Message;
use dsec_name::{Name, NoMemory};
use dsec_node::{Caches, Config, OwnedCaches};
use dsec_number::Rtype;
use dsec_outside::{Sink, Writing, send};
use dsec_word::{push_name, push_number};
use event::{Event, read_event};
use std::alloc::Global;
use std::marker::Brand;
use std::sync::ledger::{Blank, Ledger};

/// The key of the zone that is trusted.
const ANCHOR: &str = "example. 3600 IN DNSKEY 257 3 13 AQI=";

/// The moment at which messages are judged, in seconds since 1970.
const NOW: u64 = 500;

/// The word for a state.
fn state_word(state: ValidationState) -> &'static str
    ensures { result.now ≡ state_text (state_view state) }
{
    match state {
        ValidationState::Secure => "Secure",
        ValidationState::Insecure => "Insecure",
        ValidationState::Bogus => "Bogus",
        ValidationState::Indeterminate => "Indeterminate",
    }
}

/// Adds the line of a question.
fn push_ask(out: &mut Vec<u8>, index: usize, name: &Name, rtype: Rtype) -> Result<(), NoMemory>
    ensures { OnOk result (out.new.items ≡ out.old.items ++ ask_text index name.now rtype) }
{
    push_number(out, index as u64)?;
    out.extend_from_slice(b" asks ")?;
    push_name(out, name)?;
    out.extend_from_slice(b" ")?;
    let word = rtype.to_string(*out.allocator())?;
    out.extend_from_slice(word.as_bytes())?;
    out.extend_from_slice(b"\n")?;
    Ok(())
}

/// Adds the line of an end.
fn push_end(out: &mut Vec<u8>, index: usize, state: ValidationState) -> Result<(), NoMemory>
    ensures { OnOk result (out.new.items ≡ out.old.items ++ end_text index (state_view state)) }
{
    push_number(out, index as u64)?;
    out.extend_from_slice(b" is ")?;
    out.extend_from_slice(state_word(state).as_bytes())?;
    out.extend_from_slice(b"\n")?;
    Ok(())
}

/// Goes on with a message until it asks a question or is judged. An input that it doesn't wait for is passed over.
fn go_on<C: Caches<StandIn>, K: Sink, L: Ledger>(
    alloc: Global,
    index: usize,
    validation: &mut Validation<StandIn>,
    caches: &mut C,
    steps: &mut Steps<L>,
    input: Input<StandIn>,
    sink: &mut K,
) -> Result<()>
    ensures takes { TakesInput index (is_ok result)
        (record { message = validation.old; around = record { held = C.held caches.old; lasting = C.lasting caches.old; written = K.written sink.old; faults = K.faults sink.old; checked = steps.old } })
        (record { message = validation.new; around = record { held = C.held caches.new; lasting = C.lasting caches.new; written = K.written sink.new; faults = K.faults sink.new; checked = steps.new } }) input }
{
    let mut input = input;
    while validation.awaits(&input) {
        match step_on(alloc, index, validation, caches, steps, input, sink)? {
            Some(next) => input = next,
            None => return Ok(()),
        }
    }
    Ok(())
}

/// The next step of a message by an input that it waits for, and what answers it at once.
fn step_on<C: Caches<StandIn>, K: Sink, L: Ledger>(
    alloc: Global,
    index: usize,
    validation: &mut Validation<StandIn>,
    caches: &mut C,
    steps: &mut Steps<L>,
    input: Input<StandIn>,
    sink: &mut K,
) -> Result<Option<Input<StandIn>>>
    requires awaited { CourseAnswers validation.old.course.waits (input_view input) }
    ensures steps { IfOk result (λ next. StepsOn index
        (record { message = validation.old; around = record { held = C.held caches.old; lasting = C.lasting caches.old; written = K.written sink.old; faults = K.faults sink.old; checked = steps.old } })
        (record { message = validation.new; around = record { held = C.held caches.new; lasting = C.lasting caches.new; written = K.written sink.new; faults = K.faults sink.new; checked = steps.new } }) input next) }
    ensures breaks { OnErr result (Breaks index
        (record { message = validation.old; around = record { held = C.held caches.old; lasting = C.lasting caches.old; written = K.written sink.old; faults = K.faults sink.old; checked = steps.old } })
        (record { message = validation.new; around = record { held = C.held caches.new; lasting = C.lasting caches.new; written = K.written sink.new; faults = K.faults sink.new; checked = steps.new } }) input) }
    ensures awaits { IfOk result (λ next. IfSome next (λ answer. CourseAnswers validation.new.course.waits (input_view answer))) }
    ensures same { validation.new ≡ with_course validation.old validation.new.course }
    ensures nearer { steps_left (world_by stand_in validation.old) validation.new.course < steps_left (world_by stand_in validation.old) validation.old.course }
{
    let step = validation.advance(alloc, input, &mut NoMemo, steps)?;
    at_hand(alloc, index, caches, step, sink)
}

/// Writes a line that was made, and answers nothing.
#[tactic(auto, using(crate::proofs::FrontLaws::nothing_sent))]
fn said<K: Sink>(
    sink: &mut K,
    pushed: Result<(), NoMemory>,
    line: &[u8],
) -> Result<Option<Input<StandIn>>>
    ensures pushed { OnOk result (IsOk pushed) }
    ensures none { IfOk result (λ next. next ≡ None) }
    ensures written { OnOk result (Appends (K.written sink.old) (K.written sink.new) line.now) }
    ensures front { (text : List ℕ) → OnOk pushed (line.now ≡ text) → SentFront (K.written sink.old) (K.written sink.new) text }
    ensures counts { OnOk result (K.faults sink.new ≡ K.faults sink.old) }
    ensures counts_once { OnErr result (FailsOnce (K.faults sink.old) (K.faults sink.new)) }
{
    pushed.ok().context("out of memory")?;
    send(sink, line).ok().context("a write failed")?;
    Ok(None)
}

/// What answers a step at once. Nodes of zones are at hand here; where they are kept elsewhere, to get and to put one are events too. A question
/// and the end are written, and nothing answers them here.
fn at_hand<C: Caches<StandIn>, K: Sink>(
    alloc: Global,
    index: usize,
    caches: &mut C,
    step: Step<StandIn>,
    sink: &mut K,
) -> Result<Option<Input<StandIn>>>
    ensures at_hand { IfOk result (λ next. IsAtHand (C.held caches.old) (C.held caches.new) (C.lasting caches.old) (C.lasting caches.new) step next) }
    ensures written { OnOk result (Appends (K.written sink.old) (K.written sink.new) (step_text index step)) }
    ensures front { SentFront (K.written sink.old) (K.written sink.new) (step_text index step) }
    ensures counts { OnOk result (K.faults sink.new ≡ K.faults sink.old) }
    ensures counts_once { OnErr result (FailsOnce (K.faults sink.old) (K.faults sink.new)) }
    ensures err { OnErr result ((C.held caches.new ≡ C.held caches.old) × (C.lasting caches.new ≡ C.lasting caches.old)) }
{
    match step {
        Step::NodeGet(name) => Ok(Some(Input::Node(held_node(caches, &name)))),
        Step::NodePut(name, node) => {
            put_node(caches, name, &node);
            Ok(Some(Input::Stored))
        },
        Step::Ask(name, rtype) => {
            let mut line = Vec::new(alloc);
            let pushed = push_ask(&mut line, index, &name, rtype);
            said(sink, pushed, &line)
        },
        Step::Done(outcome) => {
            let state = outcome.state();
            drop(outcome);
            let mut line = Vec::new(alloc);
            let pushed = push_end(&mut line, index, state);
            said(sink, pushed, &line)
        },
    }
}

/// A message that is to be judged from the anchor.
fn begun(alloc: Global, message: &Message) -> Result<Validation<StandIn>>
    ensures { IfOk result (λ it. IsBegun (codes "example. 3600 IN DNSKEY 257 3 13 AQI=") 500 message.now it) }
{
    let anchors = TrustAnchors::from_u8(alloc, ANCHOR.as_bytes())?;
    Ok(Validation::start(alloc, anchors, Config::new(), message, NOW)?)
}

/// To which message an event goes, and as what.
fn taken(
    alloc: Global,
    event: Event,
    under_way: &mut Vec<Validation<StandIn>>,
) -> Result<(usize, Input<StandIn>)>
    ensures goes_to { IfOk result (λ r. GoesTo (codes "example. 3600 IN DNSKEY 257 3 13 AQI=") 500 event under_way.old.items under_way.new.items r) }
    ensures err { OnErr result (under_way.new.items ≡ under_way.old.items) }
{
    match event {
        Event::Message(message) => Ok((put(alloc, &message, under_way)?, Input::Begin)),
        Event::Reply(index, reply) => Ok((index, Input::Reply(reply))),
    }
}

/// Puts a message behind the others, and gives its index. There is room for it before it begins.
fn put(alloc: Global, message: &Message, under_way: &mut Vec<Validation<StandIn>>) -> Result<usize>
    ensures index { IfOk result (λ index. index ≡ length under_way.old.items) }
    ensures put { OnOk result (IsPut (codes "example. 3600 IN DNSKEY 257 3 13 AQI=") 500 message.now under_way.old.items under_way.new.items) }
    ensures err { OnErr result (under_way.new.items ≡ under_way.old.items) }
{
    let index = under_way.len();
    under_way.reserve(1)?;
    under_way.push_reserved(begun(alloc, message)?);
    Ok(index)
}

/// Takes the event of a line: the message that it is for goes on.
fn take<C: Caches<StandIn>, K: Sink, L: Ledger>(
    alloc: Global,
    line: &str,
    under_way: &mut Vec<Validation<StandIn>>,
    caches: &mut C,
    steps: &mut Steps<L>,
    sink: &mut K,
) -> Result<()>
    ensures taken { OnOk result ((event : Event) × IsEventOf line.now event × IsTaken (codes "example. 3600 IN DNSKEY 257 3 13 AQI=") 500 event true under_way.old.items under_way.new.items
        (record { held = C.held caches.old; lasting = C.lasting caches.old; written = K.written sink.old; faults = K.faults sink.old; checked = steps.old })
        (record { held = C.held caches.new; lasting = C.lasting caches.new; written = K.written sink.new; faults = K.faults sink.new; checked = steps.new })) }
    ensures left { OnErr result (IsLeft under_way.old.items under_way.new.items
        (record { held = C.held caches.old; lasting = C.lasting caches.old; written = K.written sink.old; faults = K.faults sink.old; checked = steps.old })
        (record { held = C.held caches.new; lasting = C.lasting caches.new; written = K.written sink.new; faults = K.faults sink.new; checked = steps.new }) false
        ⊎ ((event : Event) × IsEventOf line.now event × IsTaken (codes "example. 3600 IN DNSKEY 257 3 13 AQI=") 500 event false under_way.old.items under_way.new.items
        (record { held = C.held caches.old; lasting = C.lasting caches.old; written = K.written sink.old; faults = K.faults sink.old; checked = steps.old })
        (record { held = C.held caches.new; lasting = C.lasting caches.new; written = K.written sink.new; faults = K.faults sink.new; checked = steps.new }))) }
{
    let event = read_event(alloc, line).context("no event")?;
    take_event(alloc, event, under_way, caches, steps, sink)
}

/// The message that an event is for goes on.
fn take_event<C: Caches<StandIn>, K: Sink, L: Ledger>(
    alloc: Global,
    event: Event,
    under_way: &mut Vec<Validation<StandIn>>,
    caches: &mut C,
    steps: &mut Steps<L>,
    sink: &mut K,
) -> Result<()>
    ensures taken { IsTaken (codes "example. 3600 IN DNSKEY 257 3 13 AQI=") 500 event (is_ok result) under_way.old.items under_way.new.items
        (record { held = C.held caches.old; lasting = C.lasting caches.old; written = K.written sink.old; faults = K.faults sink.old; checked = steps.old })
        (record { held = C.held caches.new; lasting = C.lasting caches.new; written = K.written sink.new; faults = K.faults sink.new; checked = steps.new })
        ⊎ IsLeft under_way.old.items under_way.new.items
        (record { held = C.held caches.old; lasting = C.lasting caches.old; written = K.written sink.old; faults = K.faults sink.old; checked = steps.old })
        (record { held = C.held caches.new; lasting = C.lasting caches.new; written = K.written sink.new; faults = K.faults sink.new; checked = steps.new }) (is_ok result) }
{
    let (index, input) = taken(alloc, event, under_way)?;
    take_at(alloc, index, under_way, caches, steps, input, sink)
}

/// Goes on with the message that has this index, if there is one.
fn take_at<C: Caches<StandIn>, K: Sink, L: Ledger>(
    alloc: Global,
    index: usize,
    under_way: &mut Vec<Validation<StandIn>>,
    caches: &mut C,
    steps: &mut Steps<L>,
    input: Input<StandIn>,
    sink: &mut K,
) -> Result<()>
    ensures takes { TakesIn index (is_ok result) under_way.old.items under_way.new.items
        (record { held = C.held caches.old; lasting = C.lasting caches.old; written = K.written sink.old; faults = K.faults sink.old; checked = steps.old })
        (record { held = C.held caches.new; lasting = C.lasting caches.new; written = K.written sink.new; faults = K.faults sink.new; checked = steps.new }) input (slice_get under_way.old.items index) }
{
    if index < under_way.len() {
        go_on(
            alloc,
            index,
            &mut under_way[index],
            caches,
            steps,
            input,
            sink,
        )
    } else {
        Ok(())
    }
}

/// Takes the event of each line of the standard input in turn.
fn take_all<C: Caches<StandIn>, K: Sink, L: Ledger>(
    rt: &HostRuntime,
    under_way: &mut Vec<Validation<StandIn>>,
    caches: &mut C,
    steps: &mut Steps<L>,
    sink: &mut K,
) -> Result<()>
    ensures taken { OnOk result ((lines : List (List ℕ)) × AreTaken (codes "example. 3600 IN DNSKEY 257 3 13 AQI=") 500 lines under_way.old.items under_way.new.items
        (record { held = C.held caches.old; lasting = C.lasting caches.old; written = K.written sink.old; faults = K.faults sink.old; checked = steps.old })
        (record { held = C.held caches.new; lasting = C.lasting caches.new; written = K.written sink.new; faults = K.faults sink.new; checked = steps.new })) }
    ensures stops { OnErr result (StopsAt (codes "example. 3600 IN DNSKEY 257 3 13 AQI=") 500 under_way.old.items under_way.new.items
        (record { held = C.held caches.old; lasting = C.lasting caches.old; written = K.written sink.old; faults = K.faults sink.old; checked = steps.old })
        (record { held = C.held caches.new; lasting = C.lasting caches.new; written = K.written sink.new; faults = K.faults sink.new; checked = steps.new })) }
{
    let alloc = rt.alloc();
    for line in rt.lines(alloc) {
        take(alloc, line?.as_str(), under_way, caches, steps, sink)?;
    }
    Ok(())
}

/// The loop, over messages and nodes of its own. Checks of signatures are counted on the ledger that the blank opens.
fn run<L: Ledger>(rt: &HostRuntime, blank: Blank) -> Result<()>
    requires name { blank.name ≡ L.name }
    requires parts { blank.parts ≡ L.parts }
    requires shared { 0 < L.parts }
{
    let mut caches = OwnedCaches::new(rt.alloc());
    let mut steps = Steps::<L>::begin(blank);
    let mut under_way = Vec::new(rt.alloc());
    let mut sink = Writing {
        inner: rt.stdout(),
        faults: 0,
    };
    take_all(rt, &mut under_way, &mut caches, &mut steps, &mut sink)
}

fn main(rt: HostRuntime) -> Result<()> {
    run::<Brand>(&rt, Blank::new(1))
}
