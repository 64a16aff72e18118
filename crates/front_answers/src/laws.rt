// Laws of answers. Each function is one law, and does nothing.
ghost use Rattle.front_answers.specs.AnswerLaws.{AnswersAreFilled, OutputsAreAnswers};

/// There is no empty answer.
pub fn answers_are_filled()
    ensures { AnswersAreFilled }
{}

/// A script's output is its answer, byte for byte, unless it is empty.
pub fn outputs_are_answers()
    ensures { OutputsAreAnswers }
{}
