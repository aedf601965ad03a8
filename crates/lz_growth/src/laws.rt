//! Laws of files that grow. Each function is one law.
ghost use Rattle.lz_growth.specs.Fronts.{FrontsShowFiles};

/// What a crash leaves of a front holds a set exactly where what it leaves of the file does.
pub fn fronts_show_files()
    ensures { FrontsShowFiles }
{}
