// Contents from the shelf, and the plan of a script.
ghost use Rattle.std.specs.Prelude.{◌≡◌, ◌≤◌, ◌+◌, length, map, IfOk, IfErr};
ghost use Rattle.gcd_plan.specs.PlanView.{file_view};
ghost use Rattle.gcd_outer.specs.Outside.{seen};
ghost use Rattle.gcd_commands.specs.Calls.{MadeLoads};
ghost use Rattle.gcd_commands.specs.Fronts.{HasIntake, StopsFront};
ghost use Rattle.gcd_commands.specs.Loads.{IsLoaded, AreLoaded, IsPlanOf, IsReady, StopsLoad, StopsScript, StopsFiles, StopsReady, SomeLoads};

use crate::stop::Stop;
use gcd_outer::{LoadFault, Shelf};
use gcd_plan::{FilePart, MAX_FILE_BYTES, MAX_SCRIPT_BYTES, Plan};
use gcd_script::{Cause, Limit, ParseFault, parse};
use std::alloc::Global;

/// Loads what stands under the name, whole, by one load. `line` is the line of the script that declares it, 0 if no line does, and `longer`
/// is the answer for a content with more than `most` bytes.
pub fn load_whole<S: Shelf>(
    alloc: Global,
    shelf: &mut S,
    name: &str,
    most: u32,
    line: u32,
    longer: Stop,
) -> Result<Vec<u8>, Stop>
    ensures loaded { IfOk result (λ bytes. IsLoaded (seen S.tells S.state shelf.old shelf.new) name.now most bytes.items) }
    ensures stopped { IfErr result (StopsLoad (seen S.tells S.state shelf.old shelf.new) name.now most line longer) }
    ensures same { (S.state shelf.new).content ≡ (S.state shelf.old).content }
    ensures faults { (S.state shelf.old).faults ≤ (S.state shelf.new).faults }
    ensures loads { MadeLoads (seen S.tells S.state shelf.old shelf.new) 1 }
{
    let mut bytes = Vec::new(alloc);
    match shelf.load(name, most as usize, &mut bytes) {
        Ok(()) => Ok(bytes),
        Err(LoadFault::Failed) => Err(Stop::Unread { line }),
        Err(LoadFault::Missing) => Err(Stop::Unread { line }),
        Err(LoadFault::TooLong(_)) => Err(longer),
        Err(LoadFault::Memory) => Err(Stop::Memory),
    }
}

/// Loads the script of this name, by one load, and reads its plan.
pub fn load_plan<S: Shelf>(alloc: Global, shelf: &mut S, name: &str) -> Result<Plan, Stop>
    ensures plan { IfOk result (IsPlanOf (seen S.tells S.state shelf.old shelf.new) name.now) }
    ensures stopped { IfErr result (StopsScript (seen S.tells S.state shelf.old shelf.new) name.now) }
    ensures same { (S.state shelf.new).content ≡ (S.state shelf.old).content }
    ensures faults { (S.state shelf.old).faults ≤ (S.state shelf.new).faults }
    ensures loads { MadeLoads (seen S.tells S.state shelf.old shelf.new) 1 }
{
    let too_long = Stop::Script {
        line: 0,
        cause: Cause::PastLimit(Limit::Script),
    };
    let script = load_whole(alloc, shelf, name, MAX_SCRIPT_BYTES, 0, too_long)?;
    match parse(alloc, &script) {
        Ok(plan) => Ok(plan),
        Err(ParseFault::Refused { line, cause, .. }) => Err(Stop::Script { line, cause }),
        Err(ParseFault::Memory) => Err(Stop::Memory),
    }
}

/// Loads the files, in their order, each by one load, up to the first that is not loaded.
pub fn load_files<S: Shelf>(
    alloc: Global,
    shelf: &mut S,
    files: &[FilePart],
) -> Result<Vec<Vec<u8>>, Stop>
    ensures loaded { IfOk result (λ contents. AreLoaded (seen S.tells S.state shelf.old shelf.new) (map file_view files.now) (map (λ c. c.items) contents.items)) }
    ensures loads { IfOk result (λ _. MadeLoads (seen S.tells S.state shelf.old shelf.new) (length files.now)) }
    ensures stopped { IfErr result (StopsFiles (seen S.tells S.state shelf.old shelf.new) (map file_view files.now)) }
    ensures faults { (S.state shelf.old).faults ≤ (S.state shelf.new).faults }
    ensures same { (S.state shelf.new).content ≡ (S.state shelf.old).content }
{
    let mut contents = Vec::new(alloc);
    for file in files {
        let too_long = Stop::Script {
            line: file.line,
            cause: Cause::PastLimit(Limit::File),
        };
        let path = file.path.as_str();
        let bytes = load_whole(alloc, shelf, path, MAX_FILE_BYTES, file.line, too_long)?;
        if contents.push(bytes).is_err() {
            return Err(Stop::Memory);
        }
    }
    Ok(contents)
}

/// Loads the script of this name and reads its plan, and then loads the plan's files.
pub fn load_all<S: Shelf>(
    alloc: Global,
    shelf: &mut S,
    name: &str,
) -> Result<(Plan, Vec<Vec<u8>>), Stop>
    ensures ready { IfOk result (λ r. IsReady (seen S.tells S.state shelf.old shelf.new) name.now r.0 (map (λ c. c.items) r.1.items)) }
    ensures loads { IfOk result (λ r. MadeLoads (seen S.tells S.state shelf.old shelf.new) (length r.0.files + 1)) }
    ensures stopped { IfErr result (λ stop. SomeLoads (seen S.tells S.state shelf.old shelf.new) (λ n. StopsReady (seen S.tells S.state shelf.old shelf.new) name.now n stop)) }
{
    let plan = load_plan(alloc, shelf, name)?;
    let files = load_files(alloc, shelf, plan.files())?;
    Ok((plan, files))
}

/// Loads the script of this name and reads its plan, and then, where that has an intake, loads the plan's files. The number of the
/// intake's blocks is told beside them.
pub fn load_front<S: Shelf>(
    alloc: Global,
    shelf: &mut S,
    name: &str,
) -> Result<(Plan, Vec<Vec<u8>>, u32), Stop>
    ensures ready { IfOk result (λ r. IsReady (seen S.tells S.state shelf.old shelf.new) name.now r.0 (map (λ c. c.items) r.1.items)) }
    ensures intake { IfOk result (λ r. HasIntake r.0 r.2) }
    ensures loads { IfOk result (λ r. MadeLoads (seen S.tells S.state shelf.old shelf.new) (length r.0.files + 1)) }
    ensures stopped { IfErr result (λ stop. SomeLoads (seen S.tells S.state shelf.old shelf.new) (λ n. StopsFront (seen S.tells S.state shelf.old shelf.new) name.now n stop)) }
{
    let plan = load_plan(alloc, shelf, name)?;
    let Some((_, _, blocks)) = plan.intake() else {
        return Err(Stop::NoIntake);
    };
    let files = load_files(alloc, shelf, plan.files())?;
    Ok((plan, files, blocks))
}
