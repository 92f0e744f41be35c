// The volume of a stage and the change between two, in cubic metres, and a stage's exact sum. Nothing is written.
#![tactic(auto)]

ghost use Rattle.volume.specs.Answer.{told, told_exact};
ghost use Rattle.volume.specs.Report.{VolumeReport, ChangeReport, ExactReport};

use refusal::Refusal;
use wide::Wide;

// The volume of a stage with its coordinates: the figure in cubic metres, or the first refusal that holds.
#[tactic(auto, using(crate::proofs::Laws::checked_coordinates))]
pub fn volume(table: &[u32], corners: &[i32]) -> Result<i64, Refusal>
    ensures { VolumeReport corners.now table.now (told result) }
{
    skin::check_stage_at(table, corners)?;
    Ok(figure::volume_of(table, corners))
}

// The change from an earlier stage to a later one over the same coordinates, in the same way.
pub fn change(earlier: &[u32], later: &[u32], corners: &[i32]) -> Result<i64, Refusal>
    ensures { ChangeReport corners.now earlier.now later.now (told result) }
{
    let of_earlier = skin::check_stage_at(earlier, corners);
    let of_later = skin::check_stage_at(later, corners);
    refusal::lesser(of_earlier, of_later)?;
    Ok(figure::change_between(earlier, later, corners))
}

// The exact sum of a stage with its coordinates, of which `volume` tells the figure: six times the cubic centimetres, nothing rounded.
#[tactic(auto, using(crate::proofs::Laws::checked_coordinates))]
pub fn exact_sum(table: &[u32], corners: &[i32]) -> Result<Wide, Refusal>
    ensures { ExactReport corners.now table.now (told_exact result) }
{
    skin::check_stage_at(table, corners)?;
    Ok(figure::exact_sum_of(table, corners))
}
