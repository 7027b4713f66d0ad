//! The commands of the link: its two ends, which live from line to line, and a single frame.
use super::answers::Received;
use super::errors::Unreadable;
use super::fields::{BitField, Fields};
use super::sources::LineGenerator;
use cover::WORK_AREA;
use frames::{FRAME_BUFFER, MESSAGE_BUFFER};
use link::{Receiver, Sender, Settings, Terms};
use units::Refusal;

/// The two ends of a link, as far as lines have made them. A command that is refused leaves them as they were.
#[derive(Drop)]
pub struct Ends {
    sender: Option<Sender<LineGenerator>>,
    receiver: Option<Receiver<LineGenerator>>,
}

impl Ends {
    /// No end is made yet.
    pub fn new() -> Ends {
        Ends {
            sender: None,
            receiver: None,
        }
    }

    /// Makes the sending end, in the place of an earlier one.
    pub fn make_sender<'a>(
        &mut self,
        fields: &mut Fields<'a>,
    ) -> Result<Result<(), Refusal>, Unreadable<'a>> {
        let making = Making::take(fields, "first")?;
        fields.end()?;
        Ok(making.map(|making| self.sender = Some(making.sender())))
    }

    /// Makes the receiving end, in the place of an earlier one.
    pub fn make_receiver<'a>(
        &mut self,
        fields: &mut Fields<'a>,
    ) -> Result<Result<(), Refusal>, Unreadable<'a>> {
        let making = Making::take(fields, "first")?;
        fields.end()?;
        Ok(making.map(|making| self.receiver = Some(making.receiver())))
    }

    /// The frame of a message that the sending end seals.
    pub fn seal<'a>(
        &mut self,
        fields: &mut Fields<'a>,
    ) -> Result<Result<Vec<u8>, Refusal>, Unreadable<'a>> {
        let sealing = Sealing::take(fields)?;
        fields.end()?;
        let sender = self.sender.as_mut().ok_or(Unreadable::NoSender)?;
        Ok(sealing.done(sender))
    }

    /// The message of a frame that the receiving end opens.
    pub fn open<'a>(
        &mut self,
        fields: &mut Fields<'a>,
    ) -> Result<Result<Received, Refusal>, Unreadable<'a>> {
        let opening = Opening::take(fields)?;
        fields.end()?;
        let receiver = self.receiver.as_mut().ok_or(Unreadable::NoReceiver)?;
        Ok(opening.done(receiver))
    }

    /// The loss figure of the receiving end.
    pub fn loss<'a>(&self) -> Result<u8, Unreadable<'a>> {
        let receiver = self.receiver.as_ref().ok_or(Unreadable::NoReceiver)?;
        Ok(receiver.loss())
    }
}

/// A message sealed as the frame of a count, by an end of its own.
pub fn frame<'a>(fields: &mut Fields<'a>) -> Result<Result<Vec<u8>, Refusal>, Unreadable<'a>> {
    let making = Making::take(fields, "count")?;
    let sealing = Sealing::take(fields)?;
    Ok(making.and_then(|making| sealing.done(&mut making.sender())))
}

/// What an end is made of.
#[derive(Drop)]
struct Making {
    generator: LineGenerator,
    settings: Settings,
}

impl Making {
    /// Takes it from the fields, the first count from the one that is named. Answers which key text is none, or which
    /// setting is out of range.
    fn take<'a>(
        fields: &mut Fields<'a>,
        first_key: &'static str,
    ) -> Result<Result<Making, Refusal>, Unreadable<'a>> {
        let generator = fields.generator()?;
        let terms = Terms {
            bearer: fields.byte("bearer")?,
            direction: fields.byte("direction")?,
            tag_size: fields.byte("t")?,
            extra_iv: fields.extra_iv("extra")?,
        };
        let first = fields.number(first_key, 0..=u32::MAX)?;
        Ok(generator.and_then(|generator| Making::new(generator, terms, first)))
    }

    fn new(generator: LineGenerator, terms: Terms, first: u32) -> Result<Making, Refusal> {
        let settings = Settings::new(terms, first)?;
        Ok(Making {
            generator,
            settings,
        })
    }

    fn sender(self) -> Sender<LineGenerator> {
        Sender::new(self.generator, self.settings)
    }

    fn receiver(self) -> Receiver<LineGenerator> {
        Receiver::new(self.generator, self.settings)
    }
}

/// What a sending end is given to seal, with the buffers that it is lent.
#[derive(Drop)]
struct Sealing {
    work: Vec<u8>,
    aad: BitField,
    message: BitField,
    frame: Vec<u8>,
}

impl Sealing {
    /// Takes it from the fields.
    fn take<'a>(fields: &mut Fields<'a>) -> Result<Sealing, Unreadable<'a>> {
        Ok(Sealing {
            work: fields.room("work", WORK_AREA)?,
            aad: fields.any_bit_string("aad_bits", "aad")?,
            message: fields.any_bit_string("bits", "data")?,
            frame: fields.room("room", FRAME_BUFFER.0)?,
        })
    }

    /// The frame that an end makes of it.
    fn done(mut self, sender: &mut Sender<LineGenerator>) -> Result<Vec<u8>, Refusal> {
        let length = sender.seal(
            self.work.as_mut_slice(),
            self.aad.as_bit_string(),
            self.message.as_bit_string(),
            self.frame.as_mut_slice(),
        )?;
        self.frame.truncate(length.0);
        Ok(self.frame)
    }
}

/// What a receiving end is given to open, with the buffers that it is lent.
#[derive(Drop)]
struct Opening {
    work: Vec<u8>,
    frame: Vec<u8>,
    message: Vec<u8>,
}

impl Opening {
    /// Takes it from the fields.
    fn take<'a>(fields: &mut Fields<'a>) -> Result<Opening, Unreadable<'a>> {
        Ok(Opening {
            work: fields.room("work", WORK_AREA)?,
            frame: fields.bytes("frame")?,
            message: fields.room("room", MESSAGE_BUFFER.0)?,
        })
    }

    /// The message that an end makes of it.
    fn done(mut self, receiver: &mut Receiver<LineGenerator>) -> Result<Received, Refusal> {
        let opened = receiver.open(
            self.work.as_mut_slice(),
            self.frame.as_slice(),
            self.message.as_mut_slice(),
        )?;
        self.message.truncate(opened.bits.bytes().0);
        Ok(Received {
            opened,
            message: self.message,
        })
    }
}
