// The moves of a trace scheduler, and what the comparison of a schedule with its source is worth: what passes runs
// like its source, and what the moves derive from a source passes.
#![tactic(auto)]

ghost use Rattle.moves.specs.Theorems.{Sound, Complete, Tested};
ghost use Rattle.moves.specs.Examples.{Examples};

use domain::Domain;

/// Soundness: a schedule that passes runs like its source, from every entry and on every state. Either both trap, or
/// both reach one label with equal banks and with equal registers wherever they are live there.
pub fn passed_runs_alike<D: Domain>()
    ensures { Sound D.Domain.meaning }
{}

/// Completeness: a schedule that finitely many moves derive from its source passes.
pub fn derived_passes<D: Domain>()
    ensures { Complete D.Domain.meaning }
{}

/// The test by which terms are compared decides the relation of being built alike, up to the order of the operands of
/// commuting operations.
pub fn terms_are_tested()
    ensures { Tested }
{}

/// Each move with a schedule that it derives, and for each of its conditions a change that breaks it, with the
/// mismatch that the comparison finds.
pub fn examples_hold()
    ensures { Examples }
{}
