//! Label declarations (6.2.1).

ghost use Rattle.std.specs.Prelude.{◌≡◌, IfOk, option_map};
ghost use Rattle.pas_tree.specs.BlockTrees.{label_part_tree};
ghost use Rattle.check_steps.specs.Steps.{Does, each};
ghost use Rattle.decl_checker.specs.Labels.{define_label, define_labels, define_next_label};

use check_steps::{Frame, Work};
use core_program::rows::{NameRow, Row};
use pas_tree::blocks::{LabelPart, NextLabel};
use std::alloc::AllocError;

#[tactic(auto, using(check_steps::proofs::Runs::steps), unfolding(crate::specs::Labels::define_label))]
fn define_label(work: &mut Work, here: Frame, token: u32) -> Result<(), AllocError>
    ensures { IfOk result (λ _. Does (define_label here token) tt work.old work.new) }
{
    let value = work.tables.label(token);
    work.early(14, token, value <= 9999);
    work.declare_in(here.region, value, token)?;
    let row = NameRow::Label {
        marked: false,
        value,
        level: here.level,
        ways: 0,
    };
    work.put(token, Row::Name(row));
    Ok(())
}

#[tactic(auto, unfolding(crate::specs::Labels::define_next_label))]
fn define_next_label(work: &mut Work, here: Frame, next: &NextLabel) -> Result<(), AllocError>
    ensures { IfOk result (λ _. Does (define_next_label here tt next.now) tt work.old work.new) }
{
    define_label(work, here, next.number)
}

#[tactic(auto, using(check_steps::proofs::Runs::read_loops))]
fn define_more_labels(work: &mut Work, here: Frame, labels: &[NextLabel]) -> Result<(), AllocError>
    ensures { IfOk result (λ _. Does (each (define_next_label here) tt labels.now) tt work.old work.new) }
{
    'labels: for label in labels {
        define_next_label(work, here, label)?;
    }
    Ok(())
}

/// Declares the labels of a block in the region of its frame.
#[tactic(auto, using(check_steps::proofs::Runs::steps))]
pub fn define_labels(
    work: &mut Work,
    here: Frame,
    part: &Option<LabelPart>,
) -> Result<(), AllocError>
    ensures { IfOk result (λ _. Does (define_labels here (option_map label_part_tree part.now)) tt work.old work.new) }
{
    match part {
        None => Ok(()),
        Some(part) => {
            define_label(work, here, part.first)?;
            define_more_labels(work, here, &part.others)?;
            Ok(())
        }
    }
}
