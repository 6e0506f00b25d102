//! What the words of a command line ask of an engine.
ghost use Rattle.std.specs.Prelude.{◌≡◌};
ghost use Rattle.orb_cli.specs.Words.{job_of, policy_of, settings_of};

use orb_engine::{Job, Settings};
use response_rules::Policy;

/// The settings that the words ask for.
pub(crate) fn settings(job: command_line::Job, policy: command_line::Policy, limit: u64) -> Settings
    ensures { result ≡ settings_of job policy limit }
{
    Settings {
        job: job_for(job),
        policy: policy_for(policy),
        limit,
    }
}

fn job_for(job: command_line::Job) -> Job
    ensures { result ≡ job_of job }
{
    match job {
        command_line::Job::Filter => Job::Filter,
        command_line::Job::Explain => Job::Explain,
    }
}

fn policy_for(policy: command_line::Policy) -> Policy
    ensures { result ≡ policy_of policy }
{
    match policy {
        command_line::Policy::Orb => Policy::Orb,
        command_line::Policy::Corb => Policy::Corb,
    }
}
