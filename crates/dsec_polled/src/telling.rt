//! What is written of messages and of groups that were judged in a way.

use anyhow::{Context, Result};
use dsec_ways::{GroupTold, Told};

/// Writes what is told of messages that were judged in this way.
pub(crate) fn tell_all(rt: &HostRuntime, way: &str, all: &[Option<Told>]) -> Result<()> {
    for told in all {
        tell(rt, way, told.context("not judged")?, "questions")?;
    }
    Ok(())
}

/// Writes what is told of groups that were judged by themselves, from the anchors and by a node.
pub(crate) fn tell_groups(rt: &HostRuntime, all: &[GroupTold]) -> Result<()> {
    for told in all {
        tell(rt, "first-group", told.from_anchors, "questions")?;
        if let Some(by_node) = told.by_node {
            tell(rt, "by-node", by_node, "seconds")?;
        }
    }
    Ok(())
}

/// Writes what is told of a message or a group in this way, its number by this name.
fn tell(rt: &HostRuntime, way: &str, told: Told, name: &str) -> Result<()> {
    let Told {
        index,
        state,
        cause,
        number,
    } = told;
    match cause {
        Some(cause) => println!(rt;
            "{way} {index} {state:?} {} \"{}\" {name}={number}",
            cause.code(),
            cause.text()
        )?,
        None => println!(rt; "{way} {index} {state:?} - \"\" {name}={number}")?,
    }
    Ok(())
}
