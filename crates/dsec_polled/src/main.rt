//! Judges the messages of the scripts that the standard input holds, in several ways by public calls alone, and writes a line for each message
//! and way: by hand over one map of nodes, two by turns over one map, and over caches that forget or refuse all; and the first group by itself,
//! from the anchors and by a node. A line that begins with `== ` stands before each script.
#![tactic(auto)]

mod telling;

ghost use Rattle.std.specs.Prelude.{◌≡◌, ◌<◌};

use anyhow::{Error, Result};
use dsec_crypto::StandIn;
use dsec_group::Steps;
use dsec_node::{Caches, OwnedCaches};
use dsec_ways::{Keepless, Scene, first_groups, one_by_one, two_by_two};
use std::marker::Brand;
use std::sync::ledger::{Blank, Ledger};
use telling::{tell_all, tell_groups};

/// Judges the messages of a script in each way.
fn judge<L: Ledger>(rt: &HostRuntime, script: &[u8], steps: &mut Steps<L>) -> Result<()> {
    match Scene::read(rt.alloc(), script) {
        Ok(mut scene) => in_each_way(rt, &mut scene, steps),
        Err(_) => Err(Error::msg("no script")),
    }
}

/// Judges the messages of a scene in each way.
fn in_each_way<L: Ledger>(rt: &HostRuntime, scene: &mut Scene, steps: &mut Steps<L>) -> Result<()> {
    over_one_map(rt, scene, steps)?;
    by_turns(rt, scene, steps)?;
    over(rt, "forgetting", scene, &mut Keepless::Forgetting, steps)?;
    over(rt, "refusing", scene, &mut Keepless::Refusing, steps)?;
    by_themselves(rt, scene)
}

/// Judges the messages of a scene one after the other, over one map of nodes.
fn over_one_map<L: Ledger>(
    rt: &HostRuntime,
    scene: &mut Scene,
    steps: &mut Steps<L>,
) -> Result<()> {
    let mut caches = OwnedCaches::new(rt.alloc());
    over(rt, "by-hand", scene, &mut caches, steps)
}

/// Judges the messages of a scene one after the other, over caches.
fn over<C: Caches<StandIn>, L: Ledger>(
    rt: &HostRuntime,
    way: &str,
    scene: &mut Scene,
    caches: &mut C,
    steps: &mut Steps<L>,
) -> Result<()> {
    let told = one_by_one(rt.alloc(), scene, caches, steps)?;
    tell_all(rt, way, &told)
}

/// Judges each message of a scene and the one after it by turns.
fn by_turns<L: Ledger>(rt: &HostRuntime, scene: &mut Scene, steps: &mut Steps<L>) -> Result<()> {
    let told = two_by_two(rt.alloc(), scene, steps)?;
    tell_all(rt, "by-turns", &told)
}

/// Judges the first groups of a scene's messages by themselves, over one map of nodes.
fn by_themselves(rt: &HostRuntime, scene: &mut Scene) -> Result<()> {
    let mut caches = OwnedCaches::new(rt.alloc());
    let told = first_groups(rt.alloc(), scene, &mut caches)?;
    tell_groups(rt, &told)
}

/// Takes one line more: the script before a heading is judged, and any other line is added to the script.
fn take<L: Ledger>(
    rt: &HostRuntime,
    line: &str,
    script: &mut Vec<u8>,
    steps: &mut Steps<L>,
) -> Result<()> {
    if line.starts_with("== ") {
        if !script.is_empty() {
            judge(rt, script, steps)?;
        }
        script.clear();
        println!(rt; "{line}")?;
        return Ok(());
    }
    script.extend_from_slice(line.as_bytes())?;
    script.push(b'\n')?;
    Ok(())
}

/// Judges scripts, before each of which a heading stands. Checks of signatures are counted on the ledger that the blank opens.
fn run<L: Ledger>(rt: &HostRuntime, blank: Blank) -> Result<()>
    requires name { blank.name ≡ L.name }
    requires parts { blank.parts ≡ L.parts }
    requires some { 0 < L.parts }
{
    let mut steps = Steps::<L>::begin(blank);
    let mut script = Vec::new(rt.alloc());
    for line in rt.lines(rt.alloc()) {
        take(rt, line?.as_str(), &mut script, &mut steps)?;
    }
    judge(rt, &script, &mut steps)
}

fn main(rt: HostRuntime) -> Result<()> {
    run::<Brand>(&rt, Blank::new(1))
}
