// What a call answers, told by the number of its refusal and the first value that it names: the tests speak of numbers, since the numbers
// are the format that they test.
use lines::refusal::Refusal;

// (0, 0) where the call is not refused.
pub(crate) fn code_of<T: Drop, E: Into<Refusal> + Drop>(answer: Result<T, E>) -> (u16, usize) {
    match answer {
        Ok(_) => (0, 0),
        Err(fault) => {
            let refusal: Refusal = fault.into();
            refusal.code()
        }
    }
}
