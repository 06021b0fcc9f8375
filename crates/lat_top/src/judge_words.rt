/// The words of `judge`: the certificate's file, and the report's.
#[derive(Clone, Copy, Debug)]
pub struct JudgeWords<'a> {
    pub cert: &'a str,
    pub report: &'a str,
}
