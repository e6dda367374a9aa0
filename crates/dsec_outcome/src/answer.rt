//! What a message comes to by its judged groups (RFC 4033 5, RFC 4035 4.3, 5).

ghost use Rattle.std.specs.Prelude.{◌≡◌, ℕ, ◌==◌, ◌&&◌, List, Some, IfOk};
ghost use Rattle.std.proofs.Math.Bool.{not};
ghost use Rattle.dsec_alias.specs.Following.{AliasEnd as AliasEnds};
ghost use Rattle.dsec_follow.specs.Ends.{end_told};
ghost use Rattle.dsec_nodes.specs.Aliases.{Beside, alias_path, reached};
ghost use Rattle.dsec_nodes.specs.Alone.{after_path, at_end as at_end_of, at_name as at_name_of, on_judged as judged_comes_to, on_questions as questions_come_to};
ghost use Rattle.dsec_nodes.specs.ByDenial.{no_error_in};
ghost use Rattle.dsec_nodes.specs.Outcomes.{bogus_by, by_links};
ghost use Rattle.dsec_node.specs.Views.{bounds_of, world_of};
ghost use Rattle.dsec_spec.specs.Messages.{rcode_of};
ghost use Rattle.dsec_spec.specs.Names.{place};
ghost use Rattle.dsec_spec.specs.Numbers.{ANY};
ghost use Rattle.dsec_spec.specs.Reading.{Gives};
ghost use Rattle.dsec_found.specs.Errors.{answer_of, wants_memory};
ghost use Rattle.dsec_found.specs.Outcomes.{section_view};
ghost use Rattle.dsec_outcome.specs.Aliases.{aliases_at, denials_at};

use crate::aliases::{aliases_on, denials_on};
use crate::answered::answered;
use crate::denied::by_denial;
use crate::outcome::{Outcome, Why};
use dsec_cause::Cause;
use dsec_crypto::Verifier;
use dsec_follow::{AliasEnd, do_cname_dname};
use dsec_found::{AllJudged, Error, JudgedGroup, SharedLinks};
use dsec_group::{Limits, Memo, ValidationState};
use dsec_name::{Name, NoMemory};
use dsec_node::Config;
use dsec_nsec3_calls::get_answer_state;
use dsec_number::{Rcode, Rtype};
use dsec_wire::{Question, Record};
use std::alloc::Global;

/// What a message with this rcode comes to, by what judging the groups of its answer section came to, and then those of its
/// authority section: the first bogus group decides. So many aliases are followed.
pub fn on_judged<V: Verifier>(
    alloc: Global,
    anchors: &[Record],
    most: u8,
    config: &Config,
    rcode: Rcode,
    questions: &[Question],
    answers: &AllJudged<V>,
    authorities: &AllJudged<V>,
    memo: &mut impl Memo<V>,
) -> Result<Outcome<V>, Error>
    ensures { (now : ℕ) (message : List ℕ) → rcode_of message ≡ Some rcode
        → Gives wants_memory (λ outcome. outcome) result
        (answer_of (judged_comes_to (world_of V.accepts anchors.now (bounds_of config.now) now) most message questions.now (section_view answers.now) (section_view authorities.now))) }
{
    match (answers, authorities) {
        (AllJudged::OneBogus(cause, links), _) => Ok(bogus_under(*cause, links)?),
        (AllJudged::All(_), AllJudged::OneBogus(cause, links)) => Ok(bogus_under(*cause, links)?),
        (AllJudged::All(answers), AllJudged::All(authorities)) => {
            on_questions(
                alloc,
                anchors,
                most,
                config,
                rcode,
                questions,
                answers,
                authorities,
                memo,
            )
        }
    }
}

/// What a message comes to where a group is bogus for a cause: it is bogus, by the links to the zone whose keys were tried with it, or none.
pub fn bogus_under<V: Verifier>(
    cause: Cause,
    links: &SharedLinks<V>,
) -> Result<Outcome<V>, NoMemory>
    ensures { IfOk result (λ outcome. outcome ≡ bogus_by cause (by_links links.now)) }
{
    let links = links.clone()?;
    Ok(Outcome::new(ValidationState::Bogus, Some(cause), Why::ByLinks(links)))
}

/// What a message with this rcode comes to, none of whose groups is bogus: there has to be one question (RFC 1035 4.1.2). So many
/// aliases are followed.
pub fn on_questions<V: Verifier>(
    alloc: Global,
    anchors: &[Record],
    most: u8,
    config: &Config,
    rcode: Rcode,
    questions: &[Question],
    answers: &[JudgedGroup<V>],
    authorities: &[JudgedGroup<V>],
    memo: &mut impl Memo<V>,
) -> Result<Outcome<V>, Error>
    ensures { (now : ℕ) (message : List ℕ) → rcode_of message ≡ Some rcode
        → Gives wants_memory (λ outcome. outcome) result
        (answer_of (questions_come_to (world_of V.accepts anchors.now (bounds_of config.now) now) most message questions.now answers.now authorities.now)) }
{
    if questions.len() != 1 {
        return Err(Error::FormError);
    }
    let question = &questions[0];
    Ok(on_question(
        alloc,
        anchors,
        most,
        config,
        rcode,
        question,
        answers,
        authorities,
        memo,
    )?)
}

/// What it comes to at its one question: where the path of aliases from its name ends, in so many steps at most.
fn on_question<V: Verifier>(
    alloc: Global,
    anchors: &[Record],
    most: u8,
    config: &Config,
    rcode: Rcode,
    question: &Question,
    answers: &[JudgedGroup<V>],
    authorities: &[JudgedGroup<V>],
    memo: &mut impl Memo<V>,
) -> Result<Outcome<V>, NoMemory>
    ensures { IfOk result (λ outcome. (now : ℕ) (message : List ℕ) → rcode_of message ≡ Some rcode
        → outcome ≡ at_end_of (world_of V.accepts anchors.now (bounds_of config.now) now) message question.now answers.now authorities.now (alias_path (world_of V.accepts anchors.now (bounds_of config.now) now) most question.now answers.now authorities.now)) }
{
    let (name, class, rtype) = (question.qname(), question.qclass(), question.qtype());
    let limits = Limits {
        max_cname_dname: most,
        ..config.limits()
    };
    let end = do_cname_dname(
        alloc,
        name,
        class,
        rtype,
        answers,
        authorities,
        anchors,
        &limits,
        memo,
    )?;
    at_end(
        alloc,
        anchors,
        config,
        rcode,
        question,
        &end,
        answers,
        authorities,
        memo,
    )
}

/// What it comes to where a path of aliases ends: at the name there, after the aliases; or Bogus, as the path is.
fn at_end<V: Verifier>(
    alloc: Global,
    anchors: &[Record],
    config: &Config,
    rcode: Rcode,
    question: &Question,
    end: &AliasEnd,
    answers: &[JudgedGroup<V>],
    authorities: &[JudgedGroup<V>],
    memo: &mut impl Memo<V>,
) -> Result<Outcome<V>, NoMemory>
    ensures { IfOk result (λ outcome. (now : ℕ) (message : List ℕ) (e : AliasEnds Beside) → rcode_of message ≡ Some rcode → end.now ≡ end_told e
        → outcome ≡ at_end_of (world_of V.accepts anchors.now (bounds_of config.now) now) message question.now answers.now authorities.now e) }
{
    if let Some(cause) = end.cause() {
        return Ok(Outcome::bogus(cause));
    }
    let reached = reached_by(question, end.name())?;
    let outcome = at_name(
        alloc,
        anchors,
        config,
        rcode,
        &reached,
        answers,
        authorities,
        memo,
    )?;
    after_aliases(alloc, outcome, end, answers, authorities)
}

/// The question at a name that aliases lead to.
fn reached_by(question: &Question, name: &Name) -> Result<Question, NoMemory>
    ensures { IfOk result (λ asked. asked ≡ reached question.now name.now) }
{
    let name = name.clone()?;
    Ok(Question::new(name, question.qtype(), question.qclass()))
}

/// What it comes to at the name where a path of aliases ends, after the aliases.
fn after_aliases<V: Verifier>(
    alloc: Global,
    outcome: Outcome<V>,
    end: &AliasEnd,
    answers: &[JudgedGroup<V>],
    authorities: &[JudgedGroup<V>],
) -> Result<Outcome<V>, NoMemory>
    ensures { IfOk result (λ after. after ≡ after_path end.now.state (aliases_at answers.now end.now.steps) (denials_at authorities.now end.now.steps) outcome) }
{
    let aliases = aliases_on(alloc, answers, end.steps())?;
    let beside = denials_on(alloc, authorities, end.steps())?;
    outcome.after(end.state(), aliases, beside)
}

/// What it comes to at a question's own name: by an answer, where there was no error and one type is asked for, or else by a
/// denial.
fn at_name<V: Verifier>(
    alloc: Global,
    anchors: &[Record],
    config: &Config,
    rcode: Rcode,
    question: &Question,
    answers: &[JudgedGroup<V>],
    authorities: &[JudgedGroup<V>],
    memo: &mut impl Memo<V>,
) -> Result<Outcome<V>, NoMemory>
    ensures { IfOk result (λ outcome. (now : ℕ) (message : List ℕ) → rcode_of message ≡ Some rcode
        → outcome ≡ at_name_of (world_of V.accepts anchors.now (bounds_of config.now) now) message question.now (place question.now.name) answers.now authorities.now) }
{
    if !is_one_answer_due(rcode, question) {
        return by_denial(alloc, anchors, config, rcode, question, authorities, memo);
    }
    let (name, class, rtype) = (question.qname(), question.qclass(), question.qtype());
    match get_answer_state(name, class, rtype, answers) {
        Some((index, _, _)) => {
            answered(alloc, config, question, &answers[index], authorities, memo)
        }
        None => by_denial(alloc, anchors, config, rcode, question, authorities, memo),
    }
}

/// Whether a message with this rcode may answer a question with a set: there was no error, and one type is asked for.
fn is_one_answer_due(rcode: Rcode, question: &Question) -> bool
    ensures { result ≡ (no_error_in (Some rcode) && not (question.now.rtype == ANY)) }
{
    rcode == Rcode::NOERROR && question.qtype() != Rtype::ANY
}
