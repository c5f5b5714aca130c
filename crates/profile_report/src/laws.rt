//! Laws on the text of reports.
ghost use Rattle.std.specs.Prelude.{◌≡◌, ◌≢◌, ℕ, List};
ghost use Rattle.profile_report.specs.Reading.{IsReportRefused};
ghost use Rattle.profile_report.specs.Reported.{Reported};
ghost use Rattle.profile_report.specs.ReportText.{report_text};
ghost use Rattle.profile_report.specs.Valid.{IsValid};
ghost use Rattle.profile_report.specs.declared.reader.ReportError.{ReportError};

/// Different valid reports have different texts.
pub fn a_text_is_of_one_report()
    ensures { (r s : Reported) → IsValid r → IsValid s → report_text r ≡ report_text s → r ≡ s }
{}

/// A text has one reading, as far as there is memory: the report whose text it is, or else one refusal.
pub fn a_text_reads_in_one_way()
    ensures refusal { (text : List ℕ) (e f : ReportError) → IsReportRefused text e
        → IsReportRefused text f → e ≢ ReportError.Memory → f ≢ ReportError.Memory → f ≡ e }
    ensures apart { (text : List ℕ) (r : Reported) (e : ReportError) → IsValid r
        → text ≡ report_text r → IsReportRefused text e → e ≡ ReportError.Memory }
{}
