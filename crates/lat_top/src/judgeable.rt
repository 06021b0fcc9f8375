use cert_types::Cert;
use std::marker::Model;

/// A certificate, and the totals that were reported, in target order.
#[derive(Drop)]
pub struct Judgeable {
    pub cert: Cert,
    pub reported: Vec<u32>,
}

impl Model for Judgeable {
    ghost use Rattle.lat_top.specs.JudgeJob.{JudgeInputs};

    ghost Value = { JudgeInputs };

    ghost view = { λ a. record { cert = a.cert; reported = a.reported.items } };
}
