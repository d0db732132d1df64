//! Texts that are paths, names and rights, and texts that are none.
use io_rights::{Operation, Rights, laws_of_rights, read_rights};
use path_walk::{Path, PathFault, check_name, path_laws};
use std::alloc::Global;
use std::test::Fail;
use test_rows::{Row, Table, all_hold, bytes};

// What texts are to be | their fault | their bytes
const TEXTS: &[u8] = b"
path | None              | 2e,61,642f66,612f622f632f642f65,2e2e2e,2e61,612e,2e2e61,2e2e20,20,615c62,610a62,017f,c3a92fe282ac2ff09f9880,65cc81,[61*255],[61*255]2f[62*255],[78*255]2f[78*255]2f[78*255]2f[78*255]2f[78*255]2f[78*255]2f[78*255]2f[78*255]2f[78*255]2f[78*255]2f[78*255]2f[78*255]2f[78*255]2f[78*255]2f[78*255]2f[78*255]
path | Some(Empty)       | -
path | Some(TooLong)     | [61*255]2f[61*255]2f[61*255]2f[61*255]2f[61*255]2f[61*255]2f[61*255]2f[61*255]2f[61*255]2f[61*255]2f[61*255]2f[61*255]2f[61*255]2f[61*255]2f[61*255]2f[61*256],[61*4096],[ff*4096],[00*4096]
path | Some(NotUtf8)     | ff,61c0af62,eda080,612fe282,00ff,2f2fff
path | Some(ZeroByte)    | 00,610062,612f2f00,2e2e2f00
path | Some(EmptyName)   | 2f,2f61,612f,612f2f62,612f2f2e2e
path | Some(NameTooLong) | [61*256],612f[62*256],c3a9c3a9c3a9c3a9c3a9c3a9c3a9c3a9c3a9c3a9c3a9c3a9c3a9c3a9c3a9c3a9c3a9c3a9c3a9c3a9c3a9c3a9c3a9c3a9c3a9c3a9c3a9c3a9c3a9c3a9c3a9c3a9c3a9c3a9c3a9c3a9c3a9c3a9c3a9c3a9c3a9c3a9c3a9c3a9c3a9c3a9c3a9c3a9c3a9c3a9c3a9c3a9c3a9c3a9c3a9c3a9c3a9c3a9c3a9c3a9c3a9c3a9c3a9c3a9c3a9c3a9c3a9c3a9c3a9c3a9c3a9c3a9c3a9c3a9c3a9c3a9c3a9c3a9c3a9c3a9c3a9c3a9c3a9c3a9c3a9c3a9c3a9c3a9c3a9c3a9c3a9c3a9c3a9c3a9c3a9c3a9c3a9c3a9c3a9c3a9c3a9c3a9c3a9c3a9c3a9c3a9c3a9c3a9c3a9c3a9c3a9c3a9c3a9c3a9c3a9c3a9c3a9c3a9c3a9c3a9c3a9c3a9c3a9c3a9c3a9c3a9c3a9c3a9,[61*256]2f2f
path | Some(DotName)     | 2e2e,2e2f61,612f2e,612f2e2e2f62,612f2e2e,2e2f2f,2e2e2f[61*256],2e2f
name | None              | 61,[61*255],2e2e2e,20,0a,c3a9
name | Some(EmptyName)   | -
name | Some(NameTooLong) | [61*256],[61*5000],[00*256],[2f*256]
name | Some(ZeroByte)    | 00,2f00
name | Some(Slash)       | 612f62,2f,2e2e2f,2e2f
name | Some(DotName)     | 2e,2e2e
";

// The text of each set of rights, by its bits.
const SETS: &str = "
- c r cr w cw rw crw x cx rx crx wx cwx rwx crwx g cg rg crg wg cwg rwg crwg xg cxg rxg crxg wxg cwxg rwxg crwxg u cu ru cru wu cwu rwu crwu xu cxu
rxu crxu wxu cwxu rwxu crwxu gu cgu rgu crgu wgu cwgu rwgu crwgu xgu cxgu rxgu crxgu wxgu cwxgu rwxgu crwxgu e ce re cre we cwe rwe crwe xe cxe rxe
crxe wxe cwxe rwxe crwxe ge cge rge crge wge cwge rwge crwge xge cxge rxge crxge wxge cwxge rwxge crwxge ue cue rue crue wue cwue rwue crwue xue cxue
rxue crxue wxue cwxue rwxue crwxue gue cgue rgue crgue wgue cwgue rwgue crwgue xgue cxgue rxgue crxgue wxgue cwxgue rwxgue crwxgue t ct rt crt wt cwt
rwt crwt xt cxt rxt crxt wxt cwxt rwxt crwxt gt cgt rgt crgt wgt cwgt rwgt crwgt xgt cxgt rxgt crxgt wxgt cwxgt rwxgt crwxgt ut cut rut crut wut cwut
rwut crwut xut cxut rxut crxut wxut cwxut rwxut crwxut gut cgut rgut crgut wgut cwgut rwgut crwgut xgut cxgut rxgut crxgut wxgut cwxgut rwxgut crwxgut
et cet ret cret wet cwet rwet crwet xet cxet rxet crxet wxet cwxet rwxet crwxet get cget rget crget wget cwget rwget crwget xget cxget rxget crxget
wxget cwxget rwxget crwxget uet cuet ruet cruet wuet cwuet rwuet crwuet xuet cxuet rxuet crxuet wxuet cwxuet rwxuet crwxuet guet cguet rguet crguet
wguet cwguet rwguet crwguet xguet cxguet rxguet crxguet wxguet cwxguet rwxguet crwxguet m cm rm crm wm cwm rwm crwm xm cxm rxm crxm wxm cwxm rwxm
crwxm gm cgm rgm crgm wgm cwgm rwgm crwgm xgm cxgm rxgm crxgm wxgm cwxgm rwxgm crwxgm um cum rum crum wum cwum rwum crwum xum cxum rxum crxum wxum
cwxum rwxum crwxum gum cgum rgum crgum wgum cwgum rwgum crwgum xgum cxgum rxgum crxgum wxgum cwxgum rwxgum crwxgum em cem rem crem wem cwem rwem crwem
xem cxem rxem crxem wxem cwxem rwxem crwxem gem cgem rgem crgem wgem cwgem rwgem crwgem xgem cxgem rxgem crxgem wxgem cwxgem rwxgem crwxgem uem cuem
ruem cruem wuem cwuem rwuem crwuem xuem cxuem rxuem crxuem wxuem cwxuem rwxuem crwxuem guem cguem rguem crguem wguem cwguem rwguem crwguem xguem
cxguem rxguem crxguem wxguem cwxguem rwxguem crwxguem tm ctm rtm crtm wtm cwtm rwtm crwtm xtm cxtm rxtm crxtm wxtm cwxtm rwxtm crwxtm gtm cgtm rgtm
crgtm wgtm cwgtm rwgtm crwgtm xgtm cxgtm rxgtm crxgtm wxgtm cwxgtm rwxgtm crwxgtm utm cutm rutm crutm wutm cwutm rwutm crwutm xutm cxutm rxutm crxutm
wxutm cwxutm rwxutm crwxutm gutm cgutm rgutm crgutm wgutm cwgutm rwgutm crwgutm xgutm cxgutm rxgutm crxgutm wxgutm cwxgutm rwxgutm crwxgutm etm cetm
retm cretm wetm cwetm rwetm crwetm xetm cxetm rxetm crxetm wxetm cwxetm rwxetm crwxetm getm cgetm rgetm crgetm wgetm cwgetm rwgetm crwgetm xgetm
cxgetm rxgetm crxgetm wxgetm cwxgetm rwxgetm crwxgetm uetm cuetm ruetm cruetm wuetm cwuetm rwuetm crwuetm xuetm cxuetm rxuetm crxuetm wxuetm cwxuetm
rwxuetm crwxuetm guetm cguetm rguetm crguetm wguetm cwguetm rwguetm crwguetm xguetm cxguetm rxguetm crxguetm wxguetm cwxguetm rwxguetm crwxguetm
";

// Texts that are no rights.
const OTHERS: &str = "|rc|rr|z|r-|-r|--|R|r | r|wr|crwxguetmm|crwxguetmc|mt|rg |r,g|\u{e9}|0|cm\n";

fn fault_of(kind: &str, text: &[u8]) -> Option<PathFault> {
    if kind == "path" {
        Path::check(text).err()
    } else {
        check_name(text).err()
    }
}

// Whether a text of so many digits has the fault of its row.
fn has_fault(alloc: Global, row: &Row<'_>, digits: &str) -> bool {
    match bytes(alloc, digits) {
        Some(text) => row.says(alloc, 1, &fault_of(row.name(), &text)),
        None => false,
    }
}

#[derive(Drop)]
struct Texts;

impl Table for Texts {
    fn holds(&mut self, alloc: Global, row: &Row<'_>) -> bool {
        let Some(texts) = row.cell(2) else {
            return false;
        };
        for digits in texts.split(',') {
            if !has_fault(alloc, row, digits) {
                return false;
            }
        }
        true
    }
}

#[test]
fn texts_have_their_faults(rt: HostRuntime) -> Result<(), Fail> {
    all_hold(rt.alloc(), TEXTS, &mut Texts)?;
    path_laws();
    Ok(())
}

fn is_text_of(bits: u16, text: &[u8]) -> bool {
    match Rights::from_bits(bits) {
        Some(rights) => {
            let written = rights.letters().as_bytes() == text;
            written && rights.bits() == bits && read_rights(text) == Some(rights)
        }
        None => false,
    }
}

#[test]
fn each_set_has_its_text() -> Result<(), Fail> {
    let mut texts = SETS.split_whitespace();
    for bits in 0..512u16 {
        let text = texts.next().unwrap_or("");
        if !is_text_of(bits, text.as_bytes()) {
            return Err(Fail::new(text));
        }
    }
    match texts.next() {
        Some(text) => Err(Fail::new(text)),
        None => Ok(()),
    }
}

#[test]
fn other_texts_are_no_sets() -> Result<(), Fail> {
    for text in OTHERS.split('|') {
        if read_rights(text.as_bytes()).is_some() {
            return Err(Fail::new(text));
        }
    }
    if Rights::from_bits(512).is_some() {
        return Err(Fail::new("512"));
    }
    Ok(())
}

fn meet_and_join(read: Rights, write: Rights) -> bool {
    let both = read.join(write);
    both.bits() == 6
        && both.meet(write) == write
        && read.within(both)
        && !both.within(read)
        && both.allows(Operation::WriteBytes)
        && !read.allows(Operation::WriteBytes)
        && Rights::none().within(read)
        && read.within(Rights::all())
}

#[test]
fn sets_meet_and_join(rt: HostRuntime) {
    let read = Rights::of(Operation::ReadBytes);
    let write = Rights::of(Operation::WriteBytes);
    assert!(rt; meet_and_join(read, write));
    laws_of_rights();
}

#[test]
fn letters_are_shown(rt: HostRuntime) -> Result<(), Fail> {
    let both = Rights::of(Operation::ReadBytes).join(Rights::of(Operation::WriteBytes));
    let text = format!(in rt.alloc(); "{} {}", both.letters(), Rights::none().letters())?;
    assert!(rt; text.as_str() == "rw -");
    Ok(())
}
