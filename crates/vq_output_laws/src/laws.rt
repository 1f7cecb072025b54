//! The law on outputs. The function does nothing: its contract is the law. It holds of every well-formed
//! plan with a sure order (the clause `ordered`), and so of each lawful plan of a script that was read
//! (the clause `lawful`).
ghost use Rattle.vq_model.specs.Plan.{Plan};
ghost use Rattle.vq_model.specs.Checks.{IsLawful};
ghost use Rattle.vq_model.specs.LoweredPlans.{IsPlan};
ghost use Rattle.vq_model.specs.WellFormed.{IsWellFormed, KeepsHostOrder};
ghost use Rattle.vq_model.specs.SureOrder.{HasSureOrder};
ghost use Rattle.vq_output_laws.specs.ToldOutputs.{AnswersWaitsForAny, OutputsAreTold};

/// Each output of a plan is the text of one of its finished runs: so no text is called possible that no
/// run gives. With `run_gives_output` the outputs are the texts of the finished runs, neither more nor
/// fewer.
pub fn outputs_are_told_by_runs()
    ensures ordered { (p : Plan) → IsWellFormed p → KeepsHostOrder p → HasSureOrder p →
        AnswersWaitsForAny p → OutputsAreTold p }
    ensures lawful { (p : Plan) → IsPlan p → IsLawful p → OutputsAreTold p }
{}
