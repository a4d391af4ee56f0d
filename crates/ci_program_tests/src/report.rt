//! The report of a program of two functions.
ghost use Rattle.std.specs.Prelude.{◌≤◌, length, Ok};
ghost use Rattle.ci_elf.specs.Rules.{IsReadAs};
ghost use Rattle.ci_select.specs.Instances.{AreBlocksOf};

use crate::common::{calls, file_of, table};
use ci_cut::Limits;
use ci_elf::{Image, read};
use ci_emu::{Profile, run};
use ci_lat::Table;
use ci_live::{Analysis, analysis_of};
use ci_machine::State;
use ci_report::report;
use ci_select::{Plan, choose};
use std::alloc::{AllocError, Global};
use std::test::Fail;

/// The report of a program with two cuts.
fn two_reported_cuts() -> &'static [u8] {
    b"ci-report 1
ports 3 2 count 32 budget 65536 pad 0 read 1
profile exit 00000000 steps 61 cost 75
block 00010074 length 3 entries 1
block 00010080 length 3 entries 4
block 0001008c length 4 entries 4
block 0001009c length 7 entries 1
block 000100b8 length 3 entries 1
block 000100c4 length 4 entries 2
block 000100d4 length 6 entries 2
cut 0 block 000100c4 unit 0 gain 2 entries 2 nodes 0 1 2 word 0005050b
cut 1 block 000100d4 unit 1 gain 2 entries 2 nodes 2 3 4 word 0075150b
unit 0 cycles 1 operations 3 uses 1
unit 1 cycles 1 operations 3 uses 1
total 8
"
}

// What owns memory is lent to the calls that may fail, and let go by calls of `drop`, so that a proof looks into none
// of it.

/// The profile of a run of an executable.
fn profile_of(alloc: Global, image: &Image) -> Result<Profile, AllocError> {
    let mut state = State::start(alloc, image, b"")?;
    let profile = run(alloc, &mut state, &Table::usual(), 16777216);
    drop(state);
    profile
}

/// The report of the choice with the usual limits for an executable by its profile and its blocks.
fn report_by(
    alloc: Global,
    image: &Image,
    profile: &Profile,
    analysis: &Analysis,
) -> Result<Vec<u8>, AllocError>
    requires image { IsReadAs image.now.bytes (Ok image.now) }
    requires blocks { AreBlocksOf image.now analysis.now.blocks analysis.now.live }
{
    let Analysis { blocks, live } = analysis;
    let table = Table::usual();
    let plan = Plan {
        limits: Limits {
            inputs: 3,
            outputs: 2,
        },
        count: 32,
        budget: 65536,
    };
    let chosen = choose(alloc, image, profile, blocks, live, &table, &plan)?;
    let text = report(alloc, profile, analysis, &table, &plan, &chosen);
    drop(chosen);
    text
}

/// The same by its profile.
fn report_after(alloc: Global, image: &Image, profile: &Profile) -> Result<Vec<u8>, AllocError>
    requires image { IsReadAs image.now.bytes (Ok image.now) }
{
    let analysis = analysis_of(alloc, image, profile.targets(), &[])?;
    let text = report_by(alloc, image, profile, &analysis);
    drop(analysis);
    text
}

/// The same for an executable.
fn report_on(alloc: Global, image: &Image) -> Result<Vec<u8>, AllocError>
    requires image { IsReadAs image.now.bytes (Ok image.now) }
{
    let profile = profile_of(alloc, image)?;
    let text = report_after(alloc, image, &profile);
    drop(profile);
    text
}

/// The same for the executable in these bytes.
fn report_of(alloc: Global, bytes: &[u8]) -> Result<Vec<u8>, Fail>
    requires { length bytes.now ≤ 1000 }
{
    let image = read(alloc, bytes)?;
    let text = report_on(alloc, &image);
    drop(image);
    Ok(text?)
}

#[test]
fn two_cuts(rt: HostRuntime) -> Result<(), Fail> {
    let alloc = rt.alloc();
    let bytes = file_of(&rt, alloc, calls(), &[1000], table())?;
    assert!(rt; bytes.len() <= 1000);
    let text = report_of(alloc, &bytes)?;
    assert!(rt; text.as_slice() == two_reported_cuts());
    Ok(())
}
