//! Laws about files.
ghost use Rattle.std.specs.Prelude.{◌≡◌, ◌^◌, ◌<◌, length};
ghost use Rattle.uc_run_entry.specs.Run.{Contents, IsRun};
ghost use Rattle.uc_run_file.specs.Files.{file_text};

/// A file is that of one run. So what [`read_run`](crate::read_run) returns of a file that was written is the run that was written, and
/// by its contract it returns that unless memory runs out.
pub fn file_is_of_one_run()
    ensures { (run other : Contents) → IsRun run.low run.high run.points run.fragments →
        IsRun other.low other.high other.points other.fragments → length (file_text run) < 2 ^ 64 →
        file_text run ≡ file_text other → run ≡ other }
{}
