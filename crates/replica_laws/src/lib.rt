//! What a replica alone keeps and tells is what the model of an open replica says. Each law is the contract of a function
//! that does nothing, over a disk as it was before a step and as it is behind it.
#![tactic(auto)]

ghost use Rattle.replica_laws.specs.Laws.{ActivationsAgree, AllowedAgree, AppointsAgree, BarriersAgree, CallsAgree, ComputedAgree, CutOffAgrees, InspectionsAgree, MountsAgree, StepsAgree, SurveysAgree, ViewsAgree};

mod modelled;

use disk_model::{CrashDisk, Disk};
pub use modelled::{mount, step};

/// A replica that was opened agrees with the model's.
pub fn mounts_agree<D: Disk>(disk: &D)
    ensures { MountsAgree (D.images disk.now) }
{
    let _ = disk;
}

/// All that a replica keeps beside its store is told by the model's value that it agrees with.
pub fn views_agree<D: Disk>(disk: &D)
    ensures { ViewsAgree (D.images disk.now) }
{
    let _ = disk;
}

/// A step that the replica may take is one that the model's may.
pub fn allowed_agree<D: Disk>(disk: &D)
    ensures { AllowedAgree (D.images disk.now) }
{
    let _ = disk;
}

/// An inspection logs, tells and leaves what the model says.
pub fn inspections_agree<D: Disk>(before: &D, disk: &D)
    ensures { InspectionsAgree (D.images before.now) (D.images disk.now) }
{
    let _ = before;
    let _ = disk;
}

/// So does an activation.
pub fn activations_agree<D: Disk>(before: &D, disk: &D)
    ensures { ActivationsAgree (D.images before.now) (D.images disk.now) }
{
    let _ = before;
    let _ = disk;
}

/// So does a survey.
pub fn surveys_agree<D: Disk>(before: &D, disk: &D)
    ensures { SurveysAgree (D.images before.now) (D.images disk.now) }
{
    let _ = before;
    let _ = disk;
}

/// So does a Barrier.
pub fn barriers_agree<D: Disk>(before: &D, disk: &D)
    ensures { BarriersAgree (D.images before.now) (D.images disk.now) }
{
    let _ = before;
    let _ = disk;
}

/// So does a client's call.
pub fn calls_agree<D: Disk>(before: &D, disk: &D)
    ensures { CallsAgree (D.images before.now) (D.images disk.now) }
{
    let _ = before;
    let _ = disk;
}

/// So does an appointment, over a disk that tells its bytes.
pub fn appoints_agree<D: CrashDisk>(before: &D, disk: &D)
    ensures { AppointsAgree (D.images before.now) (D.images disk.now) }
{
    let _ = before;
    let _ = disk;
}

/// So does every step, over a disk that tells its bytes.
pub fn steps_agree<D: CrashDisk>(before: &D, disk: &D)
    ensures { StepsAgree (D.images before.now) (D.images disk.now) }
{
    let _ = before;
    let _ = disk;
}

/// A step that was cut off leaves what the model says.
pub fn cut_off_agrees<D: Disk>(before: &D, disk: &D)
    ensures { CutOffAgrees (D.images before.now) (D.images disk.now) }
{
    let _ = before;
    let _ = disk;
}

/// What a replica computes of a step is what the model says, whatever its disk does.
pub fn computed_agree<D: CrashDisk>(before: &D)
    ensures { ComputedAgree (D.images before.now) }
{
    let _ = before;
}
