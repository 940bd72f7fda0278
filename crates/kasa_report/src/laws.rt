//! Laws of the reports.

ghost use Rattle.std.specs.Prelude.{◌≡◌, ℕ, List};
ghost use Rattle.kasa_rules.specs.declared.model.Model.{Model};
ghost use Rattle.kasa_rules.specs.Reached.{IsModel};
ghost use Rattle.kasa_families.specs.Table.{Table, AreTables};
ghost use Rattle.kasa_pre.specs.Closed.{IsClosed};
ghost use Rattle.kasa_report.specs.CheckText.{IsCheckReport};
ghost use Rattle.kasa_report.specs.Report.{IsReport};
ghost use Rattle.kasa_report.specs.Same.{HoldTheSame};
ghost use Rattle.kasa_report.specs.SampleReport.{IsSampleReport};
ghost use Rattle.kasa_report.specs.Sound.{IsSoundReport};

/// Tables that hold the same have one report, in whatever order their rows stand.
pub fn there_is_one_report()
    ensures { (model : Model) (tables others : List Table) (a b : List ℕ) → IsModel model →
        AreTables model.sig tables → HoldTheSame tables others →
        IsReport model tables a → IsReport model others b → a ≡ b }
{}

/// Tables that hold the same have one report of those on closed tables, in whatever order their rows stand.
pub fn there_is_one_check_report()
    ensures { (model : Model) (tables others : List Table) (a b : List ℕ) →
        AreTables model.sig tables → HoldTheSame tables others →
        IsCheckReport model tables a → IsCheckReport model others b → a ≡ b }
{}

/// Tables have one report of those on the sample model of a size.
pub fn there_is_one_sample_report()
    ensures { (size : ℕ) (model : Model) (tables : List Table) (a b : List ℕ) → IsModel model →
        IsSampleReport size model tables a → IsSampleReport size model tables b → a ≡ b }
{}

/// The contact map that closed tables' report prints has each bond and each state of each mixture that the model reaches,
/// and no species there has more agents than the verdict on polymers says.
pub fn reports_of_closed_tables_are_sound()
    ensures { (model : Model) (tables : List Table) (text : List ℕ) → IsModel model →
        AreTables model.sig tables → IsClosed model tables →
        (report : IsReport model tables text) → IsSoundReport model tables text report }
{}
