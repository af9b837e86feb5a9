// A run block.
ghost use Rattle.good.specs.Numbers.{run_of};
ghost use Rattle.block.specs.Reading.{RunSays, WriteRunBodySays, WriteRunSays};
ghost use Rattle.block.specs.Scan.{RunAt};

use crate::kind::{Kind, check_kind};
use crate::layout::{RUN, RUN_BODY};
use good::{Run, check_run};
use pair::{read_pairs, write_pairs};
use refusal::Refusal;
use seal::{SIZE, write_parts};

// The numbers where a run's stand; its ticks are unsigned.
fn run_at(block: &[u8; SIZE]) -> Run
    ensures { RunAt block.now result }
{
    let mut numbers = [0i32; 6];
    read_pairs(&block[2..14], &mut numbers).unwrap();
    let [x, y, z, vx, vy, vz] = numbers;
    Run {
        x,
        y,
        z,
        vx,
        vy,
        vz,
        ticks: u16::from_le_bytes([block[14], block[15]]) as u32,
    }
}

#[tactic(auto, using(crate::proofs::RunLaws::run_in, crate::proofs::RunLaws::bytes_refused), unfolding(seal::specs::Seal::block_checks))]
pub fn read_run(block: &[u8]) -> Result<Run, Refusal>
    ensures { RunSays block.now result }
{
    check_kind(block, Kind::Run)?;
    let run = run_at(block.as_array().unwrap());
    check_run(run)?;
    Ok(run)
}

// The run block's bytes 2 to 15, for whoever has a run among other bytes.
#[tactic(auto, using(crate::proofs::RunLaws::good_ticks), unfolding(crate::specs::Reading::run_body_asked))]
pub fn write_run_body(run: Run, bytes: &mut [u8]) -> Result<(), Refusal>
    ensures { WriteRunBodySays (run_of run) bytes.old bytes.new result }
{
    if bytes.len() != RUN_BODY {
        return Err(Refusal::Length);
    }
    check_run(run)?;
    let ticks = run.ticks as i32;
    let numbers = [run.x, run.y, run.z, run.vx, run.vy, run.vz, ticks];
    write_pairs(&numbers, bytes)
}

#[tactic(auto, unfolding(crate::specs::Reading::run_asked, crate::specs::Reading::run_body_asked))]
pub fn write_run(run: Run, block: &mut [u8]) -> Result<(), Refusal>
    ensures { WriteRunSays (run_of run) block.old block.new result }
{
    if block.len() != SIZE {
        return Err(Refusal::Length);
    }
    let mut front = [0u8; 16];
    front[0] = RUN;
    write_run_body(run, &mut front[2..16])?;
    write_parts(&front, &[], front.len(), block)
}
