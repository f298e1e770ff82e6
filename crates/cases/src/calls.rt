// What a step stands for.
use crate::answers::Answer;
use crate::leaves::budget;
use crate::letters::{Step, Use};
use crate::places::Case;
use crate::reading::Numbers;
use crate::values::length;

impl Case<'_> {
    // The answer of a step on the records that the case has.
    pub fn called(&mut self, step: Step, a: Numbers) -> Answer {
        match step {
            Step::Size => {
                self.set_count(a[0]);
                Answer::Number(a[0])
            }
            Step::Word(place, how) => Answer::Number(self.word(place, how, a)),
            Step::QueueWord(how) => Answer::Number(self.queue_word(
                how == Use::Set,
                a[0],
                a[1],
                a[2],
            )),
            Step::Sum => Answer::Number(self.sum()),
            Step::Queue(call) => Answer::Number(self.move_thread(call, a[0], (a[1] % 256) as u8)),
            Step::Select(told) => self.select(told, a),
            Step::ByValue => Answer::Number(length()),
            Step::Turn(call) => self.turn(call, a),
            Step::Budget => Answer::Number(budget(a)),
            Step::Runtime(call) => Answer::Number(self.set_runtime(call, a)),
            Step::Expiry => Answer::Number(self.expiry(a)),
            Step::Window(call) => Answer::Number(self.window(call, a)),
            Step::Compare => Answer::Number(self.compared()),
            Step::Tree(call) => self.tree(call, a),
            Step::List(call) => self.list(call, a),
        }
    }
}
