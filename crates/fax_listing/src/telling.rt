//! What is told beside the lines of jobs.
ghost use Rattle.std.specs.Prelude.{◌≡◌, ◌++◌, OnOk, string_bytes};
ghost use Rattle.fax_listing.specs.Telling.{damage_text, no_job_text, no_page_text, too_long_text};

use fax_spool::Harm;
use std::alloc::AllocError;

/// Tells what is harmed of a file of a folder, in one line, where something is.
pub fn tell_damage(
    told: &mut String,
    folder: &str,
    file: &str,
    harm: Harm,
) -> Result<(), AllocError>
    ensures { OnOk result (string_bytes told.new
        ≡ string_bytes told.old ++ damage_text folder.now file.now harm) }
{
    let Harm {
        damaged,
        passed_over,
    } = harm;
    if damaged == 0 && passed_over == 0 {
        return Ok(());
    }
    write!(
        told,
        "faxgate: {folder}/{file}: {damaged} records damaged, {passed_over} octets passed over\n"
    )
}

/// Tells that no page of the chosen job waits in a folder, in one line.
pub fn tell_no_job(told: &mut String, folder: &str) -> Result<(), AllocError>
    ensures { OnOk result (string_bytes told.new
        ≡ string_bytes told.old ++ no_job_text folder.now) }
{
    write!(told, "faxgate: {folder}: no such job\n")
}

/// Tells that the picture of this name was not made, since the text of its page means none, in one line.
pub(crate) fn tell_no_page(told: &mut String, name: &str) -> Result<(), AllocError>
    ensures { OnOk result (string_bytes told.new ≡ string_bytes told.old ++ no_page_text name.now) }
{
    write!(told, "faxgate: {name}: the text of this page means none\n")
}

/// Tells that the TIFF of this name was not made, since its pages are too long for one, in one line.
pub(crate) fn tell_too_long(told: &mut String, name: &str) -> Result<(), AllocError>
    ensures { OnOk result (string_bytes told.new
        ≡ string_bytes told.old ++ too_long_text name.now) }
{
    write!(told, "faxgate: {name}: the pages are too long for a TIFF\n")
}
