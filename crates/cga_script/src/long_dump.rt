/// The least id of a rule whose text is too long for a line.
#[derive(Clone, Copy, PartialEq, Eq)]
pub struct LongDump {
    pub id: u32,
}
