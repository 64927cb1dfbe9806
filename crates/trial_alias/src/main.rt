// Replays messages on tables of topics by alias, a line for each, and counts them. The rows and the file stdout are made by the model of oracle/
// (oracle/alias --rows, --lines), which was written from 02's P6 and not from this code. A line is the row, the number of the refusal or 0, the
// slice that the topic in force lies in (1 the packet, 2 the table), its start and its length there, its first letter, and a sum over the
// table that is left behind.
#![tactic(auto)]

mod row;

fn main() {
    row::replay(
        b"<abx >abx <aax @abx @aax Qmix -aax -ppx Eaax Eibx Eiax Eaax -aax Pabx Paax Aafx Bagx Aaax Aahx Aaax Baax !Pib \
        -abx @aax Eaax !Pia Paax Eaax 0... Eaax -agk Daag Qaao Aagp Cibe Caal Hbbn Cadi Baar Dafd Eiah Bidv Ahpi Dabu \
        Daab Gahm Baff Facf Hagt Fabf -beo Daal Faax Chis Gaaw Baau Eaag Aaar Faar Danf Eaan Bbar Cbbz Ebei -aap Haid \
        @bcq Fiah Haaz Dafo Paoi Dhik Aaef -hlt Dabs Daaf -ajh Dapz Aaim Ehlq Fapt Faam Pahl Gice Fanl Dams Hhlv -aax \
        Baad Hhmr -aah Paap Daaa Qaan Ehif Paax Baah Eiav Cbca Caay Eabn Haar Cabq Aack Daoc Fael Gbeb -afa Eakl Fake \
        Ebbo Gact Abaf Ahjm Hhij Gaar Aajc Caan Aahh Cait ",
    );
}
